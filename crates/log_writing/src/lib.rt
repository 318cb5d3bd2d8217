// The line of a log that writes a plant file: its numbers, the call, and the text of its answer. A buffer that holds a pattern is lent to the call: where a
// byte past the file does not hold it any more, or any byte after a refusal, the call wrote what it should not.
// It may use write_plant, base_rulings and log_text.
#![tactic(auto)]

mod reading; // the numbers of a line

ghost use Rattle.std.specs.Prelude.{◌≤◌, length};

use base_rulings::Cause;
use log_text::Text;
use reading::{next_number, read_action};
use write_plant::{ACTION_WORDS, write_plant};

// The longest buffer that a log can write into.
pub const MOST_BYTES: usize = 16384;

// The most actions that a line can have: some more than a plant file may.
const MOST_ACTIONS: usize = 200;

const MOST_WORDS: usize = ACTION_WORDS * MOST_ACTIONS;

const PATTERN: u8 = 0xA5;

// What stands in the words of allocations that an action does not have: no field of one may be so large.
const PAST: u32 = 0xFFFFFFFF;

// Why a line writes no file: the cause of the refusal, or what is wrong with the line or with the call.
#[derive(Clone, Copy, Debug, PartialEq, Eq)]
pub enum WriteError {
    Refused(Cause),
    Missing,
    Extra,
    BadNumber,
    ManyBytes,
    ManyActions,
    Spilt,
}

// Makes the file that the words of a line ask for, `ROOM COUNT ACTION..`, and answers its length.
pub fn rule_write(words: &[u8]) -> Result<usize, WriteError> {
    let mut buffer = [PATTERN; MOST_BYTES];
    make(words, &mut buffer)
}

// Puts the answer to these words where they make a file, `= 0 LENGTH HEX`. The file is made again for its text: no answer holds one.
// Stays: as Display, a byte was printed by `{:02x}`, and a line of 128 actions took 2.7 times as long.
pub fn put_file<const N: usize>(text: &mut Text<N>, words: &[u8]) {
    let mut buffer = [PATTERN; MOST_BYTES];
    if let Ok(length) = make(words, &mut buffer) {
        let file = &buffer[..length.min(MOST_BYTES)];
        text.put(b"= 0 ");
        text.put_number(file.len() as u64);
        text.put(b" ");
        text.put_hex(file);
        text.put(b"\n");
    }
}

fn make(words: &[u8], buffer: &mut [u8; MOST_BYTES]) -> Result<usize, WriteError> {
    let mut words = words.split(|b| *b == b' ');
    let room = next_number(&mut words)? as usize;
    if MOST_BYTES < room {
        return Err(WriteError::ManyBytes);
    }
    let count = next_number(&mut words)? as usize;
    if MOST_ACTIONS < count {
        return Err(WriteError::ManyActions);
    }
    let mut fields = [PAST; MOST_WORDS];
    let actions = &mut fields[..ACTION_WORDS * count];
    for action in actions.chunks_exact_mut(ACTION_WORDS) {
        read_action(&mut words, action)?;
    }
    if words.next().is_some() {
        return Err(WriteError::Extra);
    }
    write_into(actions, buffer, room)
}

// Writes the actions' file into the first `room` bytes.
fn write_into(actions: &[u32], buffer: &mut [u8], room: usize) -> Result<usize, WriteError>
    requires { room ≤ length buffer.old }
{
    let written = write_plant(actions, &mut buffer[..room]);
    let end = written.unwrap_or(0).min(buffer.len());
    if !buffer[end..].iter().all(|b| *b == PATTERN) {
        return Err(WriteError::Spilt);
    }
    written.map_err(WriteError::Refused)
}
