// Two boards compared by their gap tables: by demand 3 the same timetables are possible on both exactly when the tables are equal. A board
// that is not sound stands for no timetables and is not compared. Each board is lent as its words.
// It may use base_lists, part_gaps, part_boardwords, part_jobwords and part_sound; equal is demand 3's equal.
#![tactic(auto)]

mod showing; // where they differ: how many entries, and a timetable of one that is none of the other

ghost use Rattle.std.specs.Prelude.{◌≡◌, true, length};
ghost use Rattle.spec_plain.specs.Limits.{cell_count};
ghost use Rattle.part_boardwords.specs.Layout.{board_size};
ghost use Rattle.part_boardwords.specs.Words.{board_in, lent_board};
ghost use Rattle.part_sound.specs.Sound.{sound};
ghost use Rattle.log_tables.specs.Compared.{compared_cells, compared};

use part_boardwords::layout;
use part_jobwords::points_in;
use part_sound::is_sound;
pub use showing::{Which, count_differences, witness_on, witness_time};
use spec_plain::limits;

// The first entry that differs: its row and column, and the cell of each board.
#[derive(Clone, Copy, Debug, PartialEq, Eq)]
pub struct Entry {
    pub row: u32,
    pub column: u32,
    pub first: u32,
    pub second: u32,
}

#[derive(Clone, Copy, Debug, PartialEq, Eq)]
pub enum Compared {
    // The first board is not sound, or the second.
    FirstUnsound,
    SecondUnsound,
    // The live points of the two, with the origin: they are not as many.
    Points(u32, u32),
    Entry(Entry),
    Equal,
}

// Words that are not as many as a board has are no sound board.
pub fn compare(a: &[u32], b: &[u32]) -> Compared
    ensures { result ≡ compared (lent_board a.now) (lent_board b.now) }
{
    if !is_sound(a) {
        return Compared::FirstUnsound;
    }
    if !is_sound(b) {
        return Compared::SecondUnsound;
    }
    compare_sound(a, b)
}

fn compare_sound(a: &[u32], b: &[u32]) -> Compared
    requires a_len { (length a.now ≡ board_size) × (sound (board_in a.now) ≡ true) }
    requires b_len { (length b.now ≡ board_size) × (sound (board_in b.now) ≡ true) }
    ensures { result ≡ compared (board_in a.now) (board_in b.now) }
{
    let n = points_in(a) + 1;
    let m = points_in(b) + 1;
    if n != m {
        return Compared::Points(n, m);
    }
    compare_cells(&a[layout::CELLS_AT..], &b[layout::CELLS_AT..])
}

// The first cell that differs, in row order.
fn compare_cells(a: &[u32], b: &[u32]) -> Compared
    requires { (length a.now ≡ cell_count) × (length b.now ≡ cell_count) }
    ensures { result ≡ compared_cells a.now b.now }
{
    match (0..a.len()).find(|k| a[*k] != b[*k]) {
        None => Compared::Equal,
        Some(k) => Compared::Entry(Entry {
            row: (k / limits::SIDE) as u32,
            column: (k % limits::SIDE) as u32,
            first: a[k],
            second: b[k],
        }),
    }
}
