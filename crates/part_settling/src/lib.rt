// Rules settled on a gap table, where it lies: tried one after the other, or points set to their earliest times.
// It may use part_gaps, spec_stn, base_lists, part_lines and spec_plain; it rules on nothing.
#![tactic(auto)]

mod freezing; // points set equal to their earliest times

ghost use Rattle.std.specs.Prelude.{◌≡◌, false, ℕ, ◌+◌, ◌*◌, ◌≤◌, ◌<◌, length, get_or};
ghost use Rattle.spec_plain.specs.Limits.{side, cell_count};
ghost use Rattle.spec_stn.specs.Table.{bias, Closed, IsConsistent};
ghost use Rattle.part_gaps.specs.Cells.{table_of, added, grown, Usable};
ghost use Rattle.part_settling.specs.Settled.{AllUsable, added_all, outcome};

pub use freezing::freeze;
use part_gaps::{
    FEW_CELLS, FEW_POINTS, FEWEST_CELLS, FEWEST_POINTS, add, entails, first_cells, grow,
    is_consistent,
};
use spec_plain::{Rule, limits};

// The rule added to a table of n points that it agrees with. A rule that every timetable keeps already changes no cell.
fn add_new(t: &mut [u32], n: usize, rule: Rule)
    requires t_len { (length t.old ≡ cell_count) × (n ≤ side) × Usable n rule }
    requires closed { Closed n (table_of t.old) × IsConsistent rule (table_of t.old) }
    ensures { t.new ≡ added t.old n rule }
{
    if !entails(t, rule) {
        add(t, n, rule);
    }
}

// The rules added one after the other to a table of n points, up to the first that does not agree with those before it. No row past the live
// ones changes.
fn add_all(t: &mut [u32], n: usize, rules: &[Rule]) -> bool
    requires t_len { (length t.old ≡ cell_count) × (n ≤ side) × Closed n (table_of t.old) }
    requires usable { AllUsable n rules.now }
    ensures tried { outcome result t.new ≡ added_all rules.now n t.old }
    ensures rest { (k : ℕ) → n * side ≤ k → get_or t.new k 0 ≡ get_or t.old k 0 }
{
    for rule in rules {
        if !is_consistent(t, *rule) {
            return false;
        }
        add_new(t, n, *rule);
    }
    true
}

// m new points, each from 0 to `most`, and then the rules added to a table of n points; where one does not agree with those before it, the
// table stays as it came. Only live rows change, so the first N cells are kept, which are those of the live rows.
fn try_kept<const N: usize>(t: &mut [u32], n: usize, m: usize, most: u32, rules: &[Rule]) -> bool
    requires t_len { (length t.old ≡ cell_count) × (0 < n) × (n + m ≤ side) × (most ≤ bias) × Closed n (table_of t.old) }
    requires usable { AllUsable (n + m) rules.now }
    requires live_kept { ((n + m) * side ≤ N) × (N ≤ cell_count) }
    ensures tried { outcome result t.new ≡ added_all rules.now (n + m) (grown t.old n m most) }
    ensures kept { result ≡ false → t.new ≡ t.old }
{
    let old = first_cells::<N>(t);
    grow(t, n, m, most);
    if add_all(t, n + m, rules) {
        return true;
    }
    let live = (n + m) * limits::SIDE;
    t[..live].copy_from_slice(&old[..live]);
    false
}

// The same. Of few points few rows are kept.
pub fn try_grown(t: &mut [u32], n: usize, m: usize, most: u32, rules: &[Rule]) -> bool
    requires t_len { (length t.old ≡ cell_count) × (0 < n) × (n + m ≤ side) × (most ≤ bias) × Closed n (table_of t.old) }
    requires usable { AllUsable (n + m) rules.now }
    ensures tried { outcome result t.new ≡ added_all rules.now (n + m) (grown t.old n m most) }
    ensures kept { result ≡ false → t.new ≡ t.old }
{
    if n + m <= FEWEST_POINTS {
        return try_kept::<FEWEST_CELLS>(t, n, m, most, rules);
    }
    if n + m <= FEW_POINTS {
        return try_kept::<FEW_CELLS>(t, n, m, most, rules);
    }
    try_kept::<{ limits::CELLS }>(t, n, m, most, rules)
}

// The same with no new point.
pub fn try_rules(t: &mut [u32], n: usize, rules: &[Rule]) -> bool
    requires t_len { (length t.old ≡ cell_count) × (0 < n) × (n ≤ side) × Closed n (table_of t.old) }
    requires usable { AllUsable n rules.now }
    ensures tried { outcome result t.new ≡ added_all rules.now n t.old }
    ensures kept { result ≡ false → t.new ≡ t.old }
{
    try_grown(t, n, 0, 0, rules)
}
