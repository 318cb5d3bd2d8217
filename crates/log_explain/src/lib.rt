// What a refusal means, in words. They are those of the first table of docs/REFUSALS.md, so that an operator need not look the number up.
// It may use base_rulings.
#![tactic(auto)]

ghost use Rattle.log_explain.specs.Said.{said};

use base_rulings::{Cause, Ruling};
use std::fmt;

// A ruling as the line `  refused: MEANING`, with the value named where the cause has one; nothing where accepted.
#[derive(Clone, Copy)]
pub struct Meaning(pub Ruling);

impl fmt::Display for Meaning {
    ghost output = { λ m. said m.0 };

    fn fmt<W: fmt::Write>(&self, f: &mut fmt::Formatter<W>) -> fmt::Result {
        let Ruling::Refused(cause) = self.0 else {
            return Ok(());
        };
        write!(f, "  refused: {}", words(self.0.number()))?;
        match cause {
            Cause::Plain(_) => writeln!(f),
            Cause::Action(_, place) => writeln!(f, " (action {place})"),
            Cause::Step(_, place) => writeln!(f, " (step {place})"),
            Cause::Fact(_, fact) => writeln!(f, " (fact {fact})"),
            Cause::Allocation(_, place) => writeln!(f, " (allocation {place})"),
        }
    }
}

// Document 01's numbers: plant file and offer, then the board. No call refuses with another number, but the words are there for each.
fn words(number: u32) -> &'static str {
    match number {
        1 => "the plant file has under 12 bytes or lacks the mark",
        2 => "the action count is out of range, or the length is not what the trailer says",
        3 => {
            "an index entry isn't where the record before ended, a record passes the index, \
              has n above 4 or a nonzero spare byte, or the last one ends short of the index"
        }
        4 => {
            "an action has a duration, resource, offset or length out of range, or a fact twice in its needs or in its makes"
        }
        5 => "the horizon or the lead is out of range",
        6 => "the board is not sound",
        7 => "the offer has under 28 bytes or a step count outside 1 to 8",
        8 => "a step's bytes run past the offer, or the plant has no such action",
        9 => "bytes are left over",
        10 => "a fact is both known true and known false, or both in the goal",
        11 => "a step undoes what is needed after it",
        12 => "a step's need clashes with what is needed after it",
        13 => "a needed fact is not known so",
        14 => "there are 16 jobs, or the points would pass 64",
        15 => "a place exceeds the number in its line at that moment",
        16 => "the line has 32 already",
        17 => "no timetable keeps all rules",
        18 => "send names a place with no unsent job",
        19 => "the clock would go back or pass the horizon",
        20 => "no timetable is left after the clock's rules",
        21 => {
            "there is no job to retire, or the oldest is unsent, or its last point or an allocation ends after the clock"
        }
        22 => "the list is shorter than the rows, or the buffer than the file",
        23 => "the due time is past the horizon",
        _ => "an unknown number",
    }
}
