// Answers, and their text.
ghost use Rattle.log_calls.specs.Texts.{line_text, part_text};
ghost use Rattle.log_text.specs.Written.{Written};

use base_rulings::Ruling;
use log_text::Text;
use std::fmt::{self, Write};

#[derive(Clone, Copy, Debug, PartialEq, Eq)]
pub enum Answer {
    // No text.
    Nothing,
    // The line itself.
    Line,
    // `= NUMBER VALUES`.
    Ruling(Ruling),
    // `= 0 HEX`: the part of the plant file with this action's allocations.
    Part(u32),
    // `= 0 N` and the rows of a report into a list of so many.
    Report(u32),
    // `= 0 LENGTH HEX`: the plant file that the line writes.
    File,
    // `table N` and the gaps.
    Table,
    // `state CLOCK JOBS`, the jobs and the lines.
    State,
}

pub fn put_line<const N: usize>(text: &mut Text<N>, line: &[u8])
    ensures { Written text.old.bytes text.old.len (line_text line.now) text.new.bytes text.new.len }
{
    text.put(line);
    text.put(b"\n");
}

pub fn put_ruling<const N: usize>(text: &mut Text<N>, ruling: Ruling) {
    let _ = match ruling.value() {
        Some(value) => writeln!(text, "= {} {value}", ruling.number()),
        None => writeln!(text, "= {}", ruling.number()),
    };
}

pub fn put_part<const N: usize>(text: &mut Text<N>, part: &[u8])
    ensures { Written text.old.bytes text.old.len (part_text part.now) text.new.bytes text.new.len }
{
    text.put(b"= 0 ");
    text.put_hex(part);
    text.put(b"\n");
}

pub fn put_shown<D: fmt::Display + Drop, const N: usize>(text: &mut Text<N>, shown: D) {
    let _ = write!(text, "{shown}");
}
