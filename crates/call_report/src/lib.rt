// The report: the rows of a sound board, one for each live point but the origin, in number order. The board is lent as its words, and read where
// they lie.
//
// `report` writes the rows into a list that the caller lends: `ask` rules and says how many rows are to be stored; `row_at` gives a row; a cursor goes
// from row to row, so that no row is searched for. `report_into` lends it the front of an array that comes in and goes out by value.
// It may use part_sound, part_gaps, part_boardwords and part_jobwords; it changes no board.
#![tactic(auto)]

ghost use Rattle.std.specs.Prelude.{◌≡◌, ◌+◌, ◌<◌, length};
ghost use Rattle.spec_plain.specs.Limits.{most_jobs, most_points};
ghost use Rattle.part_gaps.specs.Cells.{table_of};
ghost use Rattle.part_boardwords.specs.Layout.{board_size};
ghost use Rattle.part_boardwords.specs.Words.{word_in, cells_read};
ghost use Rattle.call_report.specs.Rows.{row_of, reported_in, reported_into, asked, next_cursor};

use base_rulings::{Cause, Ruling};
use part_boardwords::{job_at, layout};
use part_gaps::{earliest, latest};
use part_jobwords::points_in;
use part_sound::is_sound;
use spec_plain::limits;

// A point's row: its job's place, its place in the job, and its earliest and latest times.
#[repr(C)]
#[derive(Clone, Copy, Debug, PartialEq, Eq)]
pub struct Row {
    pub job: u32,
    pub point: u32,
    pub earliest: u32,
    pub latest: u32,
}

// The answer to a report into an array: the ruling, and the array after it.
// Stays: `report_into` promises both, refused too (`reported_into`).
#[derive(Clone, Copy)]
pub struct Reported {
    pub ruling: Ruling,
    pub rows: [Row; limits::MOST_POINTS],
}

// Where a row stands: its job's place, and its point's place in the job.
#[derive(Clone, Copy)]
struct Cursor {
    place: u32,
    point: u32,
}

// How many rows are stored by a report into a list of `room` rows; or the cause of its refusal, 6 or 22.
fn ask(w: &[u32], room: usize) -> Result<usize, Cause>
    ensures { result ≡ asked w.now room }
{
    if !is_sound(w) {
        return Err(Cause::Plain(6));
    }
    let stores = points_in(w) as usize;
    if room < stores {
        return Err(Cause::Plain(22));
    }
    Ok(stores)
}

// ---- row by row

// Where the next row stands: the job's next point, or the first of the next job.
fn next(w: &[u32], at: Cursor) -> Cursor
    requires { (length w.now ≡ board_size) × (at.place < most_jobs) × (at.point < most_points) }
    ensures { result ≡ next_cursor (word_in w.now) at }
{
    let job = job_at(w, at.place as usize);
    if at.point + 1 < job.points {
        return Cursor {
            place: at.place,
            point: at.point + 1,
        };
    }
    Cursor {
        place: at.place + 1,
        point: 0,
    }
}

// Row k, which stands at the cursor: that of the point numbered k + 1.
fn row_at(w: &[u32], at: Cursor, k: usize) -> Row
    requires { (length w.now ≡ board_size) × (k < most_points) }
    ensures { result ≡ row_of (table_of (cells_read (word_in w.now))) at.place at.point (k + 1) }
{
    let t = &w[layout::CELLS_AT..];
    let early = earliest(t, k + 1);
    let late = latest(t, k + 1);
    Row {
        job: at.place,
        point: at.point,
        earliest: early,
        latest: late,
    }
}

// ---- the report

// 6; 22 where the list is shorter than the rows; or the rows in front of the list, and the rest of it as it was.
pub fn report(w: &[u32], rows: &mut [Row]) -> Ruling
    ensures { (result ≡ (reported_in w.now rows.old).ruling)
        × (rows.new ≡ (reported_in w.now rows.old).rows) }
{
    let answer = ask(w, rows.len());
    let mut at = Cursor { place: 0, point: 0 };
    for k in 0..answer.unwrap_or(0) {
        rows[k] = row_at(w, at, k);
        at = next(w, at);
    }
    Ruling::from(answer)
}

// The report into a list of `room` rows, all 64 where there is room for more, that stands in front of an array: the array comes back.
pub fn report_into(w: &[u32], room: u32, mut rows: [Row; limits::MOST_POINTS]) -> Reported
    ensures { result ≡ reported_into w.now room rows }
{
    let room = (room as usize).min(limits::MOST_POINTS);
    let ruling = report(w, &mut rows[..room]);
    Reported { ruling, rows }
}
