// Compares the boards that two logs end with: `compare FILE FILE` replays both and says whether the gap tables are equal in every entry,
// which is whether the same timetables are possible on both boards.
// It may use log_session and what it shows, log_tables and call_report, and decides nothing of a call.
#![tactic(auto)]

mod meaning; // what an entry that differs means

use log_boardtext::Gap;
use log_session::{MOST_NAME, Show, argument, argument_count, flush, put_error, replay_file};
use log_tables::{Compared, compare};
use log_text::Text;
use meaning::Meaning;
use part_boardwords::BOARD_WORDS;
use std::env::Env;
use std::fmt::Write;
use std::io::{Eprint, Print};
use std::rt::Files;

// Room for a line of output: what waits of an error is short, and a name has at most 4096 bytes.
const ROOM: usize = 16384;

fn main(rt: HostRuntime) {
    if argument_count(&rt) != 3 {
        let _ = println!(rt; "! use compare FILE FILE");
        return;
    }
    let mut first = [0u32; BOARD_WORDS];
    let mut second = [0u32; BOARD_WORDS];
    let mut text = Text::new();
    if put_log(&rt, 1, &mut first, &mut text) && put_log(&rt, 2, &mut second, &mut text) {
        put_answer(&rt, &first, &second, &mut text);
    }
    flush(&rt, &text);
}

// ---- a log

// Replays the kth argument's log without its answers, and says whether it ended well; where it did not, the error is put, as `! FILE: LINE WHY`. The
// last board is left in the words lent.
fn put_log<R: Env + Files + Print + Eprint>(
    rt: &R,
    k: usize,
    board: &mut [u32; BOARD_WORDS],
    text: &mut Text<ROOM>,
) -> bool {
    let name: Text<MOST_NAME> = argument(rt, k);
    match replay_file(rt, name.as_bytes(), Show::Nothing, board, text) {
        Ok(()) => true,
        Err(error) => {
            put_name(rt, k, text);
            put_error(text, error, name.as_bytes());
            false
        }
    }
}

// Puts `! FILE: `, with the name of the kth argument's file.
fn put_name<R: Env>(rt: &R, k: usize, text: &mut Text<ROOM>) {
    text.put(b"! ");
    let name: Text<MOST_NAME> = argument(rt, k);
    text.put(name.as_bytes());
    text.put(b": ");
}

// ---- the answer

fn put_answer<R: Env>(
    rt: &R,
    a: &[u32; BOARD_WORDS],
    b: &[u32; BOARD_WORDS],
    text: &mut Text<ROOM>,
) {
    match compare(a, b) {
        Compared::FirstUnsound => put_unsound(rt, 1, text),
        Compared::SecondUnsound => put_unsound(rt, 2, text),
        Compared::Points(n, m) => {
            let _ = writeln!(text, "different: {n} and {m} live points");
        }
        Compared::Entry(entry) => {
            let _ = writeln!(
                text,
                "different: gap ({}, {}) is{} on the first board and{} on the second",
                entry.row,
                entry.column,
                Gap(entry.first),
                Gap(entry.second)
            );
            let _ = write!(text, "{}", Meaning { a, b, entry });
        }
        Compared::Equal => {
            text.put(b"equal: the same timetables are possible on both boards\n");
        }
    }
}

fn put_unsound<R: Env>(rt: &R, k: usize, text: &mut Text<ROOM>) {
    put_name(rt, k, text);
    text.put(
        b"the last board is not sound, so it stands for no timetables: let the log end on a sound board, such as an accepted fresh gives\n",
    );
}
