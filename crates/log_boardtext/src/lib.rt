// What a log shows of a board: its gap table, and all else. The board is lent as its words, and any number may stand in them, so that each
// count is taken as no more than there are places for. It may use part_boardwords and the structs of its parts (spec_plain), and the bias of a
// board's cells (part_gaps).
#![tactic(auto)]

ghost use Rattle.std.specs.Prelude.{Some, ◌∷◌, pos, ◌-ℤ◌, ◌≤◌, ◌<◌};
ghost use Rattle.std.specs.Fmt.{signed_decimal};
ghost use Rattle.spec_plain.specs.Limits.{most_jobs, most_points, resources};

use part_boardwords::{BOARD_WORDS, cell_at, job_at, layout, line_start, use_at};
use part_gaps::BIAS;
use spec_plain::limits;
use std::fmt;

// ---- the table

// A board as `table N` and N rows of N gaps, where N counts the live points with the origin.
#[derive(Clone, Copy)]
pub struct Table<'a>(pub &'a [u32; BOARD_WORDS]);

impl<'a> fmt::Display for Table<'a> {
    fn fmt<W: fmt::Write>(&self, f: &mut fmt::Formatter<W>) -> fmt::Result {
        let w = self.0;
        let n = live(w) + 1;
        writeln!(f, "table {n}")?;
        for i in 0..n {
            write!(f, "t")?;
            for j in 0..n {
                let gap = Gap(cell_at(w, i, j));
                write!(f, "{gap}")?;
            }
            writeln!(f)?;
        }
        Ok(())
    }
}

// A cell as a blank and the gap that it holds: the cell less the bias.
#[derive(Clone, Copy)]
pub struct Gap(pub u32);

impl fmt::Display for Gap {
    ghost output = { λ g. Some (32 ∷ signed_decimal (pos g.0 -ℤ pos 100000000)) };

    fn fmt<W: fmt::Write>(&self, f: &mut fmt::Formatter<W>) -> fmt::Result {
        write!(f, " {}", i64::from(self.0) - i64::from(BIAS))
    }
}

// ---- the state

// A board as `state CLOCK JOBS`, a row for each job, and one for each line that is not empty.
#[derive(Clone, Copy)]
pub struct State<'a>(pub &'a [u32; BOARD_WORDS]);

impl<'a> fmt::Display for State<'a> {
    fn fmt<W: fmt::Write>(&self, f: &mut fmt::Formatter<W>) -> fmt::Result {
        let w = self.0;
        let clock = w[layout::CLOCK_AT];
        let n = job_count(w);
        writeln!(f, "state {clock} {n}")?;
        for k in 0..n {
            let job = job_at(w, k);
            let sent = u32::from(job.sent);
            writeln!(f, "j {} {} {sent} {}", job.points, job.batch, job.due)?;
        }
        for resource in 0..limits::RESOURCES {
            write_line(f, w, resource)?;
        }
        Ok(())
    }
}

// Writes `l RESOURCE N` and N times `POINT OFFSET LENGTH`; nothing where the line is empty.
fn write_line<W: fmt::Write>(
    f: &mut fmt::Formatter<W>,
    w: &[u32; BOARD_WORDS],
    resource: usize,
) -> fmt::Result
    requires { resource < resources }
{
    let line = line_start(resource);
    let n = within(w[line], limits::MOST_USES);
    if n == 0 {
        return Ok(());
    }
    write!(f, "l {resource} {n}")?;
    for k in 0..n {
        let u = use_at(w, line, k);
        write!(f, " {} {} {}", u.point, u.offset, u.length)?;
    }
    writeln!(f)
}

// ---- counts

// The live points beside the origin, at most 64.
pub fn live(w: &[u32; BOARD_WORDS]) -> usize
    ensures { result ≤ most_points }
{
    let mut points = 0;
    for k in 0..job_count(w) {
        points = limits::MOST_POINTS.min(points + job_at(w, k).points as usize);
    }
    points
}

// The jobs, at most 16.
fn job_count(w: &[u32; BOARD_WORDS]) -> usize
    ensures { result ≤ most_jobs }
{
    within(w[layout::COUNT_AT], limits::MOST_JOBS)
}

// A count, but no more than there are places for.
fn within(count: u32, most: usize) -> usize
    ensures { result ≤ most }
{
    most.min(count as usize)
}
