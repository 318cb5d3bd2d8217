// The test of a table. Its cells may hold any numbers: their range is tested first.
ghost use Rattle.std.specs.Prelude.{◌≡◌, ◌+◌, ◌-◌, ◌≤◌, ◌<◌, length};
ghost use Rattle.spec_plain.specs.Limits.{side, cell_count};
ghost use Rattle.base_lists.specs.Loops.{all_below};
ghost use Rattle.spec_stn.specs.Table.{bias};
ghost use Rattle.part_gaptest.specs.Test.{limit, row_in_range, clear, in_range, is_diagonal, in_windows, is_gap_table};

use crate::triangle::is_closed;
use part_gaps::BIAS;
use spec_plain::limits;

// The largest that cell j of a live point's row may hold, where n points are live.
fn limit(n: usize, j: usize) -> u32
    ensures { result ≡ limit n j }
{
    if n <= j { 0 } else { 2 * BIAS }
}

// Each cell of row i, that of a live point, is within its limit.
fn row_in_range(t: &[u32], n: usize, i: usize) -> bool
    requires { (length t.now ≡ cell_count) × (i < side) }
    ensures { result ≡ row_in_range t.now n i }
{
    let mut ok = true;
    for j in 0..limits::SIDE {
        ok &= t[i * limits::SIDE + j] <= limit(n, j);
    }
    ok
}

// All cells are 0. They are joined, and looked at once.
fn are_clear(cells: &[u32]) -> bool
    ensures { result ≡ clear cells.now 0 (length cells.now) }
{
    let mut all = 0;
    for cell in cells {
        all |= *cell;
    }
    all == 0
}

// All cells from `from` on are 0. On a board of few jobs these are nearly all cells, and reading them is most of a call's time: 256 at a time,
// a fixed number that the compiler lays out without a loop, take a sixth less time than a row at a time.
fn is_rest_clear(t: &[u32], from: usize) -> bool
    requires { (length t.now ≡ cell_count) × (from ≤ cell_count) }
    ensures { result ≡ clear t.now from (cell_count - from) }
{
    let (parts, rest) = t[from..].as_chunks::<256>();
    parts.iter().all(|part| are_clear(part)) && are_clear(rest)
}

// Each row of a live point is within its limits.
fn are_rows_in_range(t: &[u32], n: usize) -> bool
    requires { (length t.now ≡ cell_count) × (n ≤ side) }
    ensures { result ≡ all_below (row_in_range t.now n) n }
{
    (0..n).all(|i| row_in_range(t, n, i))
}

// Each cell is within its limit: past this test sums of cells of live points are small.
fn in_range(t: &[u32], n: usize) -> bool
    requires { (length t.now ≡ cell_count) × (n ≤ side) }
    ensures { result ≡ in_range t.now n }
{
    are_rows_in_range(t, n) && is_rest_clear(t, n * limits::SIDE)
}

// The gap from each point to itself is 0.
fn is_diagonal(t: &[u32], n: usize) -> bool
    requires { (length t.now ≡ cell_count) × (n ≤ side) }
    ensures { result ≡ is_diagonal t.now n }
{
    (0..n).all(|i| t[i * limits::SIDE + i] == BIAS)
}

// Each point lies from 0 to the horizon.
fn in_windows(t: &[u32], n: usize, horizon: u32) -> bool
    requires { (length t.now ≡ cell_count) × (n ≤ side) × (horizon ≤ bias) }
    ensures { result ≡ in_windows t.now n horizon }
{
    let top = BIAS + horizon;
    (0..n).all(|i| t[i * limits::SIDE] <= BIAS && t[i] <= top)
}

// Whether these are the cells of a good table of n live points, whatever numbers they hold: their range is tested first.
pub fn is_gap_table(t: &[u32], n: usize, horizon: u32) -> bool
    requires { (length t.now ≡ cell_count) × (n ≤ side) × (horizon ≤ bias) }
    ensures { result ≡ is_gap_table t.now n horizon }
{
    in_range(t, n) && is_diagonal(t, n) && in_windows(t, n, horizon) && is_closed(t, n)
}
