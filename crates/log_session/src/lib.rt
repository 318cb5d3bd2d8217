// The replay of a log, for the programs: lines are taken from what is read, ruled on, and answered into a text that is lent. A log of any length
// takes the same memory: the text is written to standard output whenever it holds much, and what waits at the end is left to the program. So is
// the last board, in the words that the program lends for it.
// It may use log_calls and log_explain, and std's files, input, arguments and printing, by the runtime that a program is given.
#![tactic(auto)]

mod arguments;
mod input;

ghost use Rattle.log_text.specs.Written.{Written};
ghost use Rattle.log_session.specs.Texts.{Tells};

pub use arguments::{argument, argument_count};
use input::{LineError, Lines};
use log_calls::{Answer, Desk, Fault};
use log_explain::Meaning;
use log_text::Text;
use part_boardwords::BOARD_WORDS;
use std::env::Env;
use std::fmt::Write;
use std::fs;
use std::io::{Eprint, Print, Read};
use std::rt::Files;

// The room that a program lends for output, and how much may wait before it is written, so that a long log takes few writes. No answer is
// longer than the rest: that of `list` is its line, of at most 65,535 bytes, and the line's end.
pub const ROOM: usize = 131072;

const FULL: usize = 65536;

// The room for the name of a file, as a program's argument gives it.
pub const MOST_NAME: usize = 4096;

// What a replay puts into the text: nothing, the answers, or behind each refusal its meaning in words too.
#[derive(Clone, Copy, Debug, PartialEq, Eq)]
pub enum Show {
    Nothing,
    Answers,
    Meanings,
}

// Why a log is not replayed to its end: what is wrong with the line of a row, or the input cannot be read.
#[derive(Clone, Copy, Debug, PartialEq, Eq)]
pub enum LogError {
    Line(u64, Fault),
    Unreadable,
}

// ---- a log

// Replays the file of that name. A file that cannot be opened cannot be read either, and so is answered; its last board is that of zeros.
pub fn replay_file<R: Files + Print + Eprint, const N: usize>(
    rt: &R,
    name: &[u8],
    show: Show,
    board: &mut [u32; BOARD_WORDS],
    text: &mut Text<N>,
) -> Result<(), LogError> {
    board.fill(0);
    // A name that is no text, in UTF-8, is the name of no file that can be opened.
    let path = str::from_utf8(name).map_err(|_| LogError::Unreadable)?;
    let file = fs::open(rt, path).map_err(|_| LogError::Unreadable)?;
    replay(rt, file, show, board, text)
}

// Replays the log that is read from `input`. The board of zeros, which it begins with, is put into the words lent.
pub fn replay<R: Print + Eprint, I: Read + Drop, const N: usize>(
    rt: &R,
    input: I,
    show: Show,
    board: &mut [u32; BOARD_WORDS],
    text: &mut Text<N>,
) -> Result<(), LogError> {
    let mut lines = Lines::new(input);
    let mut desk = Desk::new(board);
    // A proved loop has to end, and no log has so many lines.
    for row in 1..u64::MAX {
        let line = match lines.next_line() {
            Ok(Some(line)) => line,
            Ok(None) => return Ok(()),
            Err(LineError::TooLong) => return Err(LogError::Line(row, Fault::LongLine)),
            Err(LineError::Unreadable) => return Err(LogError::Unreadable),
        };
        let answer = desk
            .rule_line(line)
            .map_err(|fault| LogError::Line(row, fault))?;
        put_answer(&desk, show, answer, line, text);
        drain(rt, text);
    }
    Ok(())
}

// ---- output

// Puts the answer, and the meaning of a refusal, as far as they are to be shown.
fn put_answer<const N: usize>(
    desk: &Desk<'_>,
    show: Show,
    answer: Answer,
    line: &[u8],
    text: &mut Text<N>,
) {
    if show == Show::Nothing {
        return;
    }
    desk.put_answer(text, answer, line);
    if let (Show::Meanings, Answer::Ruling(ruling)) = (show, answer) {
        let _ = write!(text, "{}", Meaning(ruling));
    }
}

// Puts `LINE WHY`, as it stands behind `! `. Line 0 is that of a log that cannot be read, which is told by its name.
pub fn put_error<const N: usize>(text: &mut Text<N>, error: LogError, name: &[u8])
    ensures { Tells error name.now (λ s. Written text.old.bytes text.old.len s text.new.bytes text.new.len) }
{
    match error {
        LogError::Line(row, fault) => {
            let _ = writeln!(text, "{row} {fault}");
        }
        LogError::Unreadable => {
            text.put(b"0 cannot read ");
            text.put(name);
            text.put(
                b": see that it is a file that may be read, with a name of at most 4095 bytes\n",
            );
        }
    }
}

// Writes the text that waits where it is much.
fn drain<R: Print + Eprint, const N: usize>(rt: &R, text: &mut Text<N>) {
    if FULL < text.len() {
        flush(rt, text);
        text.clear();
    }
}

// Writes the text that waits; where that fails, standard error says so.
pub fn flush<R: Print + Eprint, const N: usize>(rt: &R, text: &Text<N>) {
    if let Err(e) = rt.write_all(text.as_bytes()) {
        let _ = eprintln!(rt;
            "the output could not be written: see that there is room for it: {e}"
        );
    }
}
