// New points.
ghost use Rattle.std.specs.Prelude.{◌≡◌, ℕ, ◌+◌, ◌*◌, ◌≤◌, ◌<◌, length};
ghost use Rattle.spec_plain.specs.Limits.{side, cell_count};
ghost use Rattle.base_lists.specs.Loops.{rewritten};
ghost use Rattle.spec_stn.specs.Table.{bias, grow};
ghost use Rattle.part_gaps.specs.Cells.{cell, table_of, overlaid, hung_cell, grown};

use crate::BIAS;
use spec_plain::limits;

// The column of the new point n: the gap to it is the gap to the origin plus `most`.
fn hang_column(t: &mut [u32], n: usize, most: u32)
    requires t_len { (length t.old ≡ cell_count) × (n < side) × (most ≤ bias) }
    requires by_index { (i : ℕ) → i < n → cell t.old i 0 ≤ bias + bias }
    ensures { t.new ≡ rewritten (hung_cell t.old n most) t.old 0 (n * side) }
{
    // Stays: with `for row in t.chunks_exact_mut(limits::SIDE).take(n)` the proof does not close: what the cells hold after it stays open.
    for i in 0..n {
        t[i * limits::SIDE + n] = t[i * limits::SIDE] + most;
    }
}

// A new point, numbered n, from 0 to `most`: it hangs on the origin, so that the gaps from it are those from the origin.
fn hang(t: &mut [u32], n: usize, most: u32)
    requires t_len { (length t.old ≡ cell_count) × (0 < n) × (n < side) × (most ≤ bias) }
    requires by_index { (i : ℕ) → i < n → cell t.old i 0 ≤ bias + bias }
    ensures { t.new ≡ overlaid (n + 1) (grow most n (table_of t.old)) t.old }
{
    hang_column(t, n, most);
    t.copy_within(..n, n * limits::SIDE);
    t[n * limits::SIDE + n] = BIAS;
}

// m new points, each from 0 to `most`, in a table of n points.
pub fn grow(t: &mut [u32], n: usize, m: usize, most: u32)
    requires t_len { (length t.old ≡ cell_count) × (0 < n) × (n + m ≤ side) × (most ≤ bias) }
    requires by_index { (i : ℕ) → i < n → cell t.old i 0 ≤ bias + bias }
    ensures { t.new ≡ grown t.old n m most }
{
    for k in 0..m {
        hang(t, n + k, most);
    }
}
