// What an entry that differs means to a service engineer: what each board says of its two points, how many entries differ, and a timetable that
// one of the boards allows and the other does not. It puts into words what log_tables and call_report answer, and decides nothing.
use call_report::{Row, report_into};
use log_boardtext::live;
use log_tables::{Entry, Which, count_differences, witness_on, witness_time};
use part_boardwords::BOARD_WORDS;
use part_gaps::BIAS;
use spec_plain::limits;
use std::fmt;

// All of it, for two boards that differ in the entry.
#[derive(Clone, Copy)]
pub struct Meaning<'a> {
    pub a: &'a [u32; BOARD_WORDS],
    pub b: &'a [u32; BOARD_WORDS],
    pub entry: Entry,
}

impl<'a> fmt::Display for Meaning<'a> {
    fn fmt<W: fmt::Write>(&self, f: &mut fmt::Formatter<W>) -> fmt::Result {
        let Meaning { a, b, entry } = *self;
        let first = Bound {
            board: a,
            entry,
            cell: entry.first,
        };
        let second = Bound {
            board: b,
            entry,
            cell: entry.second,
        };
        writeln!(f, "on the first board {first}")?;
        writeln!(f, "on the second board {second}")?;
        writeln!(f, "entries that differ: {}", count_differences(a, b))?;
        match witness_on(entry.first, entry.second) {
            Which::First => {
                writeln!(f, "possible on the first board and not on the second:")?;
                write_times(f, a, entry.row as usize)
            }
            Which::Second => {
                writeln!(f, "possible on the second board and not on the first:")?;
                write_times(f, b, entry.row as usize)
            }
        }
    }
}

// ---- the entry

// What the cell says: how late the column's point can be after the row's. Where that is negative, it is before it.
#[derive(Clone, Copy)]
struct Bound<'a> {
    board: &'a [u32; BOARD_WORDS],
    entry: Entry,
    cell: u32,
}

impl<'a> fmt::Display for Bound<'a> {
    fn fmt<W: fmt::Write>(&self, f: &mut fmt::Formatter<W>) -> fmt::Result {
        let point = Point {
            board: self.board,
            x: self.entry.column,
        };
        let other = Point {
            board: self.board,
            x: self.entry.row,
        };
        match self.cell.checked_sub(BIAS) {
            Some(most) => write!(f, "{point} is at most {most} ms after {other}"),
            None => {
                let least = BIAS.saturating_sub(self.cell);
                write!(f, "{point} is at least {least} ms before {other}")
            }
        }
    }
}

// `point K of job J`, or `the origin` for point 0. The board's own report names its points: two boards may have other jobs.
#[derive(Clone, Copy)]
struct Point<'a> {
    board: &'a [u32; BOARD_WORDS],
    x: u32,
}

impl<'a> fmt::Display for Point<'a> {
    fn fmt<W: fmt::Write>(&self, f: &mut fmt::Formatter<W>) -> fmt::Result {
        let Some(k) = self.x.checked_sub(1) else {
            return write!(f, "the origin");
        };
        match rows_of(self.board).get(k as usize) {
            Some(row) => write!(f, "point {} of job {}", row.point, row.job),
            None => Ok(()),
        }
    }
}

fn rows_of(w: &[u32; BOARD_WORDS]) -> [Row; limits::MOST_POINTS] {
    let blank = Row {
        job: 0,
        point: 0,
        earliest: 0,
        latest: 0,
    };
    report_into(w, limits::MOST_POINTS as u32, [blank; limits::MOST_POINTS]).rows
}

// ---- the timetable

// Writes the board's timetable in which each point is as late after point i as can be: `job J:` and the times of its points, a line for each job.
fn write_times<W: fmt::Write>(
    f: &mut fmt::Formatter<W>,
    board: &[u32; BOARD_WORDS],
    i: usize,
) -> fmt::Result {
    let rows = rows_of(board);
    let n = live(board);
    for (k, row) in rows[..n].iter().enumerate() {
        // A job's first point begins its line; the first job has no line before it.
        if row.point == 0 {
            if row.job != 0 {
                writeln!(f)?;
            }
            write!(f, "job {}:", row.job)?;
        }
        write!(f, " {}", witness_time(board, i, k + 1))?;
    }
    writeln!(f)
}
