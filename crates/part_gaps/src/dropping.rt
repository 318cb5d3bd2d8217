// Points dropped.
ghost use Rattle.std.specs.Prelude.{◌≡◌, ◌+◌, ◌-◌, ◌*◌, ◌≤◌, ◌<◌, length, get_or};
ghost use Rattle.spec_plain.specs.Limits.{side, cell_count};
ghost use Rattle.base_lists.specs.Loops.{rewritten};
ghost use Rattle.spec_stn.specs.Table.{old_number};
ghost use Rattle.part_gaps.specs.Cells.{dropped_cell, dropped};

use spec_plain::limits;

// The number that point x had before the m points from f on were dropped.
fn old_number(f: usize, m: usize, x: usize) -> usize
    requires { (x ≤ side) × (m ≤ side) }
    ensures number { result ≡ old_number f m x }
    ensures near { (x ≤ result) × (result ≤ x + m) }
{
    if x < f { x } else { x + m }
}

// `count` cells from `from` on moved down to the places from `to` on. A cell is read before its place is written.
fn move_cells(t: &mut [u32], to: usize, from: usize, count: usize)
    requires { (length t.old ≡ cell_count) × (to ≤ from) × (from + count ≤ cell_count) }
    ensures { t.new ≡ rewritten (λ k. get_or t.old (from + (k - to)) 0) t.old to (to + count) }
{
    // Stays: with `copy_within` points take a tenth to a fifth longer to drop: it has to do for places above the cells as for places below, and
    // tests at each row which of the two it is. Here cells only ever move to places below.
    for k in 0..count {
        t[to + k] = t[from + k];
    }
}

// Row a of the table that is left, with `left` points: the row of the point's old number, without the columns of the points dropped, and 0 past
// them. No row and no column moves up, so each is moved before it is written over.
fn drop_columns(t: &mut [u32], f: usize, m: usize, left: usize, a: usize)
    requires { (length t.old ≡ cell_count) × (f ≤ left) × (left + m ≤ side) × (a < left) }
    ensures { t.new ≡ rewritten (dropped_cell t.old f m left) t.old (a * side) ((a + 1) * side) }
{
    let from = old_number(f, m, a) * limits::SIDE;
    let to = a * limits::SIDE;
    move_cells(t, to, from, f);
    move_cells(t, to + f, from + f + m, left - f);
    t[to + left..to + limits::SIDE].fill(0);
}

// All rows of the table that is left.
fn drop_rows(t: &mut [u32], f: usize, m: usize, left: usize)
    requires { (length t.old ≡ cell_count) × (f ≤ left) × (left + m ≤ side) }
    ensures { t.new ≡ rewritten (dropped_cell t.old f m left) t.old 0 (left * side) }
{
    for a in 0..left {
        drop_columns(t, f, m, left, a);
    }
}

// The m points from f on dropped from a table of n points: later points are renumbered down, and freed cells hold 0.
pub fn drop_points(t: &mut [u32], f: usize, m: usize, n: usize)
    requires { (length t.old ≡ cell_count) × (f + m ≤ n) × (n ≤ side) }
    ensures { t.new ≡ dropped t.old f m n }
{
    let left = n - m;
    drop_rows(t, f, m, left);
    t[left * limits::SIDE..].fill(0);
}
