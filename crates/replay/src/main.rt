// Replays a call log: `replay [--explain] [--chart] [FILE]` reads the log from the file, or from standard input where none is named, and
// writes the answers to standard output. With --explain each refusal is followed by its meaning in words; with --chart a picture of the
// last board ends the output, where no error has ended the log.
// It may use log_session and what it shows, and decides nothing of a call.
#![tactic(auto)]

mod arguments;

use arguments::{Arguments, read_arguments};
use log_chart::Chart;
use log_session::{MOST_NAME, ROOM, Show, argument, flush, put_error, replay, replay_file};
use log_text::Text;
use part_boardwords::BOARD_WORDS;
use std::env::Env;
use std::fmt::Write;
use std::io::{Eprint, Print};
use std::rt::Files;

fn main(rt: HostRuntime) {
    match read_arguments(&rt) {
        Ok(asked) => run(&rt, asked),
        // Where this cannot be written there is nobody to tell.
        Err(fault) => {
            let _ = println!(rt; "! 0 {fault}: use replay [--explain] [--chart] [FILE]");
        }
    }
}

fn run<R: Env + Files + Input + Print + Eprint>(rt: &R, asked: Arguments) {
    let show = if asked.explain {
        Show::Meanings
    } else {
        Show::Answers
    };
    let mut board = [0u32; BOARD_WORDS];
    let mut text: Text<ROOM> = Text::new();
    let mut name: Text<MOST_NAME> = Text::new();
    name.put(b"standard input");
    let replayed = match asked.file {
        None => replay(rt, rt.reader(), show, &mut board, &mut text),
        Some(k) => {
            name = argument(rt, k);
            replay_file(rt, name.as_bytes(), show, &mut board, &mut text)
        }
    };
    match replayed {
        Ok(()) if asked.chart => {
            let _ = write!(text, "\n{}", Chart(&board));
        }
        Ok(()) => {}
        Err(error) => {
            text.put(b"! ");
            put_error(&mut text, error, name.as_bytes());
        }
    }
    flush(rt, &text);
}
