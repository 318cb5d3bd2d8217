// The axis, the clock and the rows of resources. The picture stands right of the names, from column 13 on.
ghost use Rattle.std.specs.Prelude.{◌≡◌, ◌+◌, ◌*◌, ◌≤◌, ◌<◌};
ghost use Rattle.spec_plain.specs.Limits.{resources};
ghost use Rattle.log_chart.specs.Chart.{Scaled, column_of};

use crate::board::Board;
use crate::row::Row;
use crate::scale::Scale;
use part_boardwords::{layout, line_start};
use spec_plain::limits;
use std::fmt;
use std::fmt::Write;

const NAMES: usize = 13;

// ---- places

// A scale, and what is known of the board's. `Scale` itself cannot carry it: the definition `scale_of` makes one of any numbers.
#[derive(Clone, Copy)]
struct Axis {
    scale: Scale,
    ghost scaled: { Scaled scale },
}

impl Axis {
    // When a column begins.
    fn time_of(self, column: usize) -> u64
        requires { column ≤ 80 }
        ensures { (result ≡ self.scale.begin + column * self.scale.column) × (result ≤ 4454967295) }
    {
        self.scale.begin + column as u64 * self.scale.column
    }

    // The column of a time. The scale has one for each time that the picture has to show.
    fn column_of(self, time: u64) -> usize
        ensures { (result ≡ column_of self.scale time) × (result ≤ 79) }
    {
        let column = time.saturating_sub(self.scale.begin) / self.scale.column;
        column.min(79) as usize
    }

    // How many columns begin before a time.
    fn columns_to(self, time: u64) -> usize
        ensures { result ≤ 80 }
    {
        if time == 0 {
            return 0;
        }
        self.column_of(time - 1) + 1
    }
}

// ---- the picture

pub fn write_picture<W: fmt::Write>(
    f: &mut fmt::Formatter<W>,
    board: &Board<'_>,
    scale: Scale,
) -> fmt::Result
    requires { Scaled scale }
{
    let w = board.w;
    let axis = Axis { scale };
    writeln!(f)?;
    write_tens(f, axis, |time| time)?;
    write_tens(f, axis, |_| '|')?;
    write_clock(f, axis, w[layout::CLOCK_AT])?;
    for resource in 0..limits::RESOURCES {
        write_line(f, board, axis, resource)?;
    }
    Ok(())
}

// Writes a mark at every tenth column, where that is no later than the picture's end: what `mark` has for its time.
fn write_tens<W: fmt::Write, D: fmt::Display + Drop, F: Fn(u64) -> D>(
    f: &mut fmt::Formatter<W>,
    axis: Axis,
    mark: F,
) -> fmt::Result
    requires { F.IsAlwaysCallable mark }
{
    let mut row = Row::new(f);
    for k in 0..8 {
        let time = axis.time_of(10 * k);
        if time <= axis.scale.end {
            row.pad(NAMES + 10 * k)?;
            let shown = mark(time);
            write!(row, "{shown}")?;
        }
    }
    writeln!(row)
}

fn write_clock<W: fmt::Write>(f: &mut fmt::Formatter<W>, axis: Axis, clock: u32) -> fmt::Result {
    let mut row = Row::new(f);
    write!(row, "clock")?;
    row.pad(NAMES + axis.column_of(u64::from(clock)))?;
    writeln!(row, "^")
}

// ---- the rows of resources

// Writes a resource's row, with the marks of the columns up to the one in which its last use ends; nothing where its line is empty.
fn write_line<W: fmt::Write>(
    f: &mut fmt::Formatter<W>,
    board: &Board<'_>,
    axis: Axis,
    resource: usize,
) -> fmt::Result
    requires { resource < resources }
{
    let w = board.w;
    let line = line_start(resource);
    if w[line] == 0 {
        return Ok(());
    }
    let mut row = Row::new(f);
    write!(row, "resource {resource}")?;
    row.pad(NAMES)?;
    for k in 0..axis.columns_to(board.last_end(line, 0)) {
        let from = axis.time_of(k);
        row.write_char(board.mark_at(line, from, from + axis.scale.column))?;
    }
    writeln!(row)
}
