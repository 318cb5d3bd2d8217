// What shows how two boards differ (specs/Witness): how many entries do, and the times of a timetable that one of them allows and the other does not.
ghost use Rattle.std.specs.Prelude.{◌≡◌, length};
ghost use Rattle.spec_plain.specs.Limits.{cell_count};
ghost use Rattle.part_boardwords.specs.Words.{lent_board};
ghost use Rattle.log_tables.specs.Witness.{differing, differences, witness_on, witness_time};

use part_boardwords::{BOARD_WORDS, cell_at, layout};
use part_sound::is_sound;
use spec_plain::limits;

// One of the two boards.
#[derive(Clone, Copy, Debug, PartialEq, Eq)]
pub enum Which {
    First,
    Second,
}

// ---- how many entries differ

// None are counted where a board is not sound.
// Stays: that the number is 0 there is its promise (`differences`), and so it is of `witness_time`.
pub fn count_differences(a: &[u32], b: &[u32]) -> u32
    ensures { result ≡ differences (lent_board a.now) (lent_board b.now) }
{
    if is_sound(a) && is_sound(b) {
        count_cells(&a[layout::CELLS_AT..], &b[layout::CELLS_AT..])
    } else {
        0
    }
}

fn count_cells(a: &[u32], b: &[u32]) -> u32
    requires { (length a.now ≡ cell_count) × (length b.now ≡ cell_count) }
    ensures { result ≡ differing a.now b.now cell_count }
{
    let mut n: u32 = 0;
    // Stays: with `(0..a.len()).filter(..).count()` the proof doesn't close. That the closure passes just the places that differ stays open: it takes
    // a number and reads two lists there, where the closure of log_text's `count`, which is proved, is told by the byte of one list that it takes.
    for k in 0..a.len() {
        if a[k] != b[k] {
            n += 1;
        }
    }
    n
}

// ---- a timetable of one board

// The board that allows a timetable which the other doesn't, by their cells at an entry that differs.
pub fn witness_on(x: u32, y: u32) -> Which
    ensures { result ≡ witness_on x y }
{
    if y < x { Which::First } else { Which::Second }
}

// The time of point k in the board's timetable in which each point is as late after point i as can be.
pub fn witness_time(w: &[u32], i: usize, k: usize) -> u32
    ensures { result ≡ witness_time (lent_board w.now) i k }
{
    if limits::SIDE <= i || limits::SIDE <= k || w.len() != BOARD_WORDS {
        return 0;
    }
    cell_at(w, i, k).saturating_sub(cell_at(w, i, 0))
}
