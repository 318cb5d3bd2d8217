// A picture of a board in text: a row for each resource that is in use, time from left to right, each use drawn at its earliest time with
// its job's mark, the clock, and for each job its windows, due time and batch. The picture is at most 93 columns wide, a job's row at most 102.
// The board is lent as its words. Of the board it may use what it shows.
#![tactic(auto)]

mod board; // the board that is drawn: when a use is under way, and whose it is
mod row; // a row as it is written
mod rows; // the axis, the clock and the rows of resources
mod scale; // which times the picture shows, and how wide a column is
mod windows; // the jobs' windows

use crate::board::Board;
use crate::rows::write_picture;
use crate::windows::write_windows;
use part_boardwords::{BOARD_WORDS, layout};
use part_sound::is_sound;
use std::fmt;

// A board as its chart. The times of a board that is not sound mean nothing: it has none.
#[derive(Clone, Copy)]
pub struct Chart<'a>(pub &'a [u32; BOARD_WORDS]);

impl<'a> fmt::Display for Chart<'a> {
    fn fmt<W: fmt::Write>(&self, f: &mut fmt::Formatter<W>) -> fmt::Result {
        let w = self.0;
        if !is_sound(w) {
            return writeln!(f, "no chart: the board is not sound (refusal 6)");
        }
        let clock = w[layout::CLOCK_AT];
        if w[layout::COUNT_AT] == 0 {
            return writeln!(f, "chart: clock {clock} ms, no job is live");
        }
        write!(f, "chart: clock {clock} ms, ")?;
        write_board(f, &Board::of(w))
    }
}

// Writes `N jobs, one column is WIDTH ms`, the picture and the jobs.
fn write_board<W: fmt::Write>(f: &mut fmt::Formatter<W>, board: &Board<'_>) -> fmt::Result {
    let w = board.w;
    let scale = board.scale();
    let count = w[layout::COUNT_AT];
    let jobs = if count == 1 { "job" } else { "jobs" };
    writeln!(f, "{count} {jobs}, one column is {} ms", scale.column)?;
    write_picture(f, board, scale)?;
    write_windows(f, board)
}
