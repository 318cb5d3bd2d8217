// A rule added to the table, and whether it agrees with it.
ghost use Rattle.std.specs.Prelude.{◌≡◌, ℕ, ◌+◌, ◌*◌, ◌≤◌, ◌<◌, length, get_or};
ghost use Rattle.spec_plain.specs.Limits.{side, cell_count};
ghost use Rattle.base_lists.specs.Loops.{rewritten};
ghost use Rattle.spec_stn.specs.Table.{bias, is_consistent, entails, Closed};
ghost use Rattle.part_gaps.specs.Cells.{cell, table_of, relaxed, added, Usable, Whole};

use crate::{BIAS, first_cells};
use spec_plain::{Rule, limits};

// Whether some timetable of a closed table keeps the rule.
pub fn is_consistent(t: &[u32], r: Rule) -> bool
    requires t_len { (length t.now ≡ cell_count) × Usable side r }
    requires late_bound { cell t.now r.early r.late ≤ bias + bias }
    ensures { result ≡ is_consistent r (table_of t.now) }
{
    let at = r.early as usize * limits::SIDE + r.late as usize;
    BIAS + r.more <= r.slack + t[at]
}

// Whether every timetable of a closed table keeps the rule.
pub fn entails(t: &[u32], r: Rule) -> bool
    requires t_len { (length t.now ≡ cell_count) × Usable side r }
    requires early_bound { cell t.now r.late r.early ≤ bias + bias }
    ensures { result ≡ entails (table_of t.now) r }
{
    let at = r.late as usize * limits::SIDE + r.early as usize;
    t[at] + r.more <= BIAS + r.slack
}

// Row a relaxed: each cell is the least of what it was and the way that begins with `via`, goes on by `row` and is shorter by `cut`.
// The loop has no branch and is compiled to vectors: x86-64-v2, for which the kit builds, has the least of unsigned numbers.
fn relax(t: &mut [u32], row: &[u32; limits::SIDE], a: usize, n: usize, via: u32, cut: u32)
    requires t_len { (length t.old ≡ cell_count) × (n ≤ side) × (a < n) × (via ≤ 300000000) }
    requires by_index { (b : ℕ) → b < n → cell t.old a b ≤ bias + bias }
    requires by_index_2 { (b : ℕ) → b < n → get_or row.now b 0 ≤ bias + bias }
    requires by_index_3 { (b : ℕ) → b < n → cut ≤ via + get_or row.now b 0 }
    ensures { t.new ≡ rewritten (relaxed t.old row.now via cut) t.old (a * side) (a * side + n) }
{
    let from = a * limits::SIDE;
    // Stays: with `t[from..from + n].iter_mut().zip(row)` the proof does not close: what the cells hold after it stays open.
    for b in 0..n {
        t[from + b] = t[from + b].min(via + row[b] - cut);
    }
}

// The same where it changes a cell. `row` is that of the point `early`: where the way is no shorter than the direct gap from a to `early`, it
// is so to every point behind it, and the row stays as it is.
fn relax_row(
    t: &mut [u32],
    row: &[u32; limits::SIDE],
    a: usize,
    n: usize,
    early: usize,
    via: u32,
    cut: u32,
)
    requires t_len { (length t.old ≡ cell_count) × (n ≤ side) × (a < n) × (early < n) × (via ≤ 300000000) × (cut ≤ 300000000) }
    requires by_index { (b : ℕ) → b < n → cell t.old a b ≤ bias + bias }
    requires by_index_2 { (b : ℕ) → b < n → get_or row.now b 0 ≤ bias + bias }
    requires by_index_3 { (b : ℕ) → b < n → cut ≤ via + get_or row.now b 0 }
    requires by_index_4 { (b : ℕ) → b < n → cell t.old a b + bias ≤ cell t.old a early + get_or row.now b 0 }
    ensures { t.new ≡ rewritten (relaxed t.old row.now via cut) t.old (a * side) (a * side + n) }
{
    if t[a * limits::SIDE + early] + cut <= via + BIAS {
        return;
    }
    relax(t, row, a, n, via, cut);
}

// The rule added to a closed table of n points: a way from a to b may go from a to late, across the rule, and from early to b. The row of
// the early point is copied, since it is relaxed on the way; a cell of late's column is read before its row is relaxed.
pub fn add(t: &mut [u32], n: usize, r: Rule)
    requires t_len { (length t.old ≡ cell_count) × (n ≤ side) × Usable n r }
    requires closed { Closed n (table_of t.old) }
    requires whole { Whole n r (table_of t.old) }
    ensures { t.new ≡ added t.old n r }
{
    let early = r.early as usize;
    let late = r.late as usize;
    let row = first_cells(&t[early * limits::SIDE..]);
    let cut = BIAS + r.more;
    for a in 0..n {
        let via = t[a * limits::SIDE + late] + r.slack;
        relax_row(t, &row, a, n, early, via, cut);
    }
}
