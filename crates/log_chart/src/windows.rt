// The jobs' windows, a row for each job: its mark, whether it was sent, when it starts, when it ends, its due time, and its batch.
ghost use Rattle.std.specs.Prelude.{◌+◌, ◌≤◌, ◌<◌};
ghost use Rattle.spec_plain.specs.Limits.{side, most_jobs};

use crate::board::{Board, glyph};
use crate::row::Row;
use part_boardwords::{job_at, layout};
use part_gaps::{earliest, latest};
use spec_plain::Job;
use std::fmt;
use std::fmt::Write;

// The column at which the first window stands.
const STARTS: usize = 15;

// When a point can be: `EARLIEST..LATEST`, or the one time where they are equal.
#[derive(Clone, Copy)]
struct Window {
    earliest: u32,
    latest: u32,
}

impl fmt::Display for Window {
    fn fmt<W: fmt::Write>(&self, f: &mut fmt::Formatter<W>) -> fmt::Result {
        if self.earliest == self.latest {
            return write!(f, "{}", self.earliest);
        }
        write!(f, "{}..{}", self.earliest, self.latest)
    }
}

impl<'a> Board<'a> {
    fn window(&self, x: usize) -> Window
        requires { x < side }
    {
        let t = self.t;
        Window {
            earliest: earliest(t, x),
            latest: latest(t, x),
        }
    }
}

// Writes an empty row, and one for each job. x is the first point of the next job.
pub fn write_windows<W: fmt::Write>(f: &mut fmt::Formatter<W>, board: &Board<'_>) -> fmt::Result {
    let w = board.w;
    let count = w[layout::COUNT_AT] as usize;
    let digits = digits(w[layout::HORIZON_AT]);
    writeln!(f)?;
    let mut x = 1;
    for k in 0..count {
        let job = job_at(w, k);
        write_job(f, board, k, x, job, digits)?;
        x += job.points as usize;
    }
    Ok(())
}

// How many digits a time can have: none is later than the horizon.
fn digits(horizon: u32) -> usize
    ensures { result ≤ 10 }
{
    horizon.max(1).ilog10() as usize + 1
}

// Writes the row of the job at `place`, whose first point is x. The widest window is two times and two dots. A due time or a batch of 0 is none.
fn write_job<W: fmt::Write>(
    f: &mut fmt::Formatter<W>,
    board: &Board<'_>,
    place: usize,
    x: usize,
    job: Job,
    digits: usize,
) -> fmt::Result
    requires { (place ≤ most_jobs) × (1 ≤ job.points) × (x + job.points ≤ side) × (digits ≤ 10) }
{
    let last = x + job.points as usize - 1;
    let width = 2 * digits + 2;
    let terms = STARTS + 16 + 2 * width;
    let state = if job.sent { "sent" } else { "unsent" };
    let mut row = Row::new(f);
    write!(row, "job {}  {state}", glyph(place))?;
    row.pad(STARTS)?;
    write!(row, "starts {}", board.window(x))?;
    row.pad(STARTS + 9 + width)?;
    write!(row, "ends {}", board.window(last))?;
    if job.due != 0 {
        row.pad(terms)?;
        write!(row, "due {}", job.due)?;
    }
    if job.batch != 0 {
        row.pad(terms + 4 + digits + 2)?;
        write!(row, "batch {}", job.batch)?;
    }
    writeln!(row)
}
