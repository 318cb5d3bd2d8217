// The triangle test, of cells that are in range: no entry exceeds the sum by way of a third point. It looks at n x n x n sums, which is most of
// a call's time on a full board.
//
// A cell is good where the way less the cell, lifted, has the top bit. The bits of many cells are joined and looked at once, so that the inmost
// loop has no branch and is compiled to vectors.
ghost use Rattle.std.specs.Prelude.{◌≡◌, true, ◌&&◌, ◌⊎◌, ◌+◌, ◌-◌, ◌≤◌, ◌<◌, length};
ghost use Rattle.spec_plain.specs.Limits.{side, cell_count};
ghost use Rattle.base_lists.specs.Loops.{build};
ghost use Rattle.spec_stn.specs.Table.{bias};
ghost use Rattle.part_gaps.specs.Cells.{table_of, Bounded};
ghost use Rattle.part_gaptest.specs.Test.{in_range, way_holds, row_holds, is_closed, top, lift};

use part_gaps::BIAS;
use spec_plain::limits;

// The bit by which the test tells that a cell is good, and what lifts a difference to it.
const TOP: u32 = 2_147_483_648;

const LIFT: u32 = TOP - BIAS;

// ---- many points

// The way less the cell, lifted. The way stands before the cell: what is lifted is then one number for a whole loop over cells.
fn lifted(way: u32, onward: u32, direct: u32) -> u32
    requires { (way ≤ bias + bias) × (onward ≤ bias + bias) × (direct ≤ bias + bias) }
    ensures { result ≡ way + lift 0 + onward - direct }
{
    way + LIFT + onward - direct
}

// No cell of row i exceeds the ways by points a and b. Two ways at once share the reading of the row.
fn ways_hold(t: &[u32], n: usize, i: usize, a: usize, b: usize) -> bool
    requires t_len { (length t.now ≡ cell_count) × (n ≤ side) × (i < n) × (a < n) × (b < n) }
    requires bounded { Bounded n (table_of t.now) }
    ensures { result ≡ (way_holds t.now n i a && way_holds t.now n i b) }
{
    let direct = i * limits::SIDE;
    let first = a * limits::SIDE;
    let second = b * limits::SIDE;
    let way = t[direct + a];
    let other = t[direct + b];
    let mut all = TOP;
    for k in 0..n {
        all &= lifted(way, t[first + k], t[direct + k])
            & lifted(other, t[second + k], t[direct + k]);
    }
    TOP <= all
}

// No cell of row i exceeds the way by any point. Two ways are tested at once, the last of an odd number with itself.
fn row_holds(t: &[u32], n: usize, i: usize) -> bool
    requires t_len { (length t.now ≡ cell_count) × (n ≤ side) × (i < n) }
    requires bounded { Bounded n (table_of t.now) }
    ensures { result ≡ row_holds t.now n i }
{
    let mut j = 0;
    // Stays: with `for pair in 0..n / 2` a test of 64 points takes a seventh longer, and with `all` in place of a loop one of 33 a twentieth. With
    // `for j in (0..n).step_by(2)` the proof doesn't close: that no pair is left where the loop ends after a turn is known under no name of the kit
    // that a proof may cite.
    while j < n {
        let next = (j + 1).min(n - 1);
        if !ways_hold(t, n, i, j, next) {
            return false;
        }
        j = next + 1;
    }
    true
}

// No cell exceeds the way by any point.
fn are_many_closed(t: &[u32], n: usize) -> bool
    requires t_len { (length t.now ≡ cell_count) × (n ≤ side) }
    requires bounded { Bounded n (table_of t.now) }
    ensures { result ≡ is_closed t.now n }
{
    (0..n).all(|i| row_holds(t, n, i))
}

// ---- up to 16 points

// What lifts a cell to the top bit, 16 times, and then the bit itself, 16 times: read from place 16 - n on, the first n cells of a row get the
// one and those past them the other, by which they are good whatever the way is.
fn lift_row() -> [u32; 32]
    ensures { result ≡ build lift 32 }
{
    let mut next = [TOP; 32];
    next[..16].fill(LIFT);
    next
}

// The way less the cell, lifted by what its place has.
fn lifted_by(lift: u32, way: u32, onward: u32, direct: u32) -> u32
    requires { (way ≤ bias + bias) × (onward ≤ bias + bias) × (direct ≤ lift) × (lift ≤ top) }
    ensures { result ≡ way + (lift - direct) + onward }
{
    way + (lift - direct) + onward
}

// No cell of row i exceeds the way by point j. All 16 cells are looked at, a fixed number, which makes four vectors; those past the n live points
// hold 0.
fn few_way_holds(t: &[u32], lifts: &[u32; 32], n: usize, i: usize, j: usize) -> bool
    requires t_len { (length t.now ≡ cell_count) × (n ≤ 16) × (i < n) × (j < n) }
    requires n_value { (in_range t.now n ≡ true) × (lifts.now ≡ build lift 32) }
    ensures { result ≡ way_holds t.now n i j }
{
    let direct = i * limits::SIDE;
    let onward = j * limits::SIDE;
    let from = 16 - n;
    let way = t[direct + j];
    let mut all = TOP;
    for k in 0..16 {
        all &= lifted_by(lifts[from + k], way, t[onward + k], t[direct + k]);
    }
    TOP <= all
}

// No cell of row i exceeds the way by any point.
fn few_row_holds(t: &[u32], lifts: &[u32; 32], n: usize, i: usize) -> bool
    requires t_len { (length t.now ≡ cell_count) × (n ≤ 16) × (i < n) }
    requires n_value { (in_range t.now n ≡ true) × (lifts.now ≡ build lift 32) }
    ensures { result ≡ row_holds t.now n i }
{
    // Stays: with `all` in place of the loop a test of 16 points takes a fifth longer.
    for j in 0..n {
        if !few_way_holds(t, lifts, n, i, j) {
            return false;
        }
    }
    true
}

// No cell exceeds the way by any point.
fn are_few_closed(t: &[u32], n: usize) -> bool
    requires t_len { (length t.now ≡ cell_count) × (n ≤ 16) }
    requires n_value { in_range t.now n ≡ true }
    ensures { result ≡ is_closed t.now n }
{
    let lifts = lift_row();
    (0..n).all(|i| few_row_holds(t, &lifts, n, i))
}

// ---- any number

// No cell exceeds the way by any point: document 01's triangle law.
pub fn is_closed(t: &[u32], n: usize) -> bool
    requires t_len { (length t.now ≡ cell_count) × (n ≤ side) }
    requires n_value { in_range t.now n ≡ true }
    ensures { result ≡ is_closed t.now n }
{
    if n <= 16 {
        are_few_closed(t, n)
    } else {
        are_many_closed(t, n)
    }
}
