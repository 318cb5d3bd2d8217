// Lines of the input. It is read in chunks, and each line is gathered from as many as it lies in.
ghost use Rattle.std.specs.Prelude.{◌≤◌, length};

use log_text::{Text, find};
use std::io::Read;

// How many bytes are read at once.
const MOST_READ: usize = 65536;

// A line has fewer bytes.
const LINE_ROOM: usize = 65536;

// Why there is no line: there is no room for it, or the input cannot be read.
#[derive(Clone, Copy, Debug, PartialEq, Eq)]
pub enum LineError {
    TooLong,
    Unreadable,
}

// What one read brought: the bytes from `from` on and before `to` are still to be used.
#[derive(Drop)]
struct Chunk {
    bytes: [u8; MOST_READ],
    from: usize,
    to: usize,
    ghost within: { (from ≤ to) × (to ≤ 65536) },
}

impl Chunk {
    fn new() -> Chunk {
        Chunk {
            bytes: [0; MOST_READ],
            from: 0,
            to: 0,
        }
    }

    // The bytes that are left or, where none are, those that one more read brings: none where the input has ended.
    fn refill<R: Read>(&mut self, input: &mut R) -> Result<&[u8], LineError> {
        if self.from == self.to {
            self.to = input
                .read(&mut self.bytes)
                .map_err(|_| LineError::Unreadable)?;
            self.from = 0;
        }
        Ok(&self.bytes[self.from..self.to])
    }

    // The first n of them are used.
    fn skip(&mut self, n: usize) {
        self.from += n.min(self.to - self.from);
    }
}

// The lines of what is read from `input`, one after the other.
#[derive(Drop)]
pub struct Lines<R> {
    input: R,
    chunk: Chunk,
    line: Text<LINE_ROOM>,
}

impl<R: Read> Lines<R> {
    pub fn new(input: R) -> Lines<R> {
        Lines {
            input,
            chunk: Chunk::new(),
            line: Text::new(),
        }
    }

    // The next line, without its end; none behind the last. The last line need not have an end.
    pub fn next_line(&mut self) -> Result<Option<&[u8]>, LineError> {
        self.line.clear();
        // A proved loop has to end, and each turn takes a byte at least: no line uses the turns up.
        for _ in 0..u64::MAX {
            let unread = self.chunk.refill(&mut self.input)?;
            if unread.is_empty() {
                break;
            }
            let end = find(unread, b'\n');
            let piece = &unread[..end.unwrap_or(unread.len())];
            if LINE_ROOM - self.line.len() <= piece.len() {
                return Err(LineError::TooLong);
            }
            self.line.put(piece);
            let used = piece.len() + 1;
            self.chunk.skip(used);
            if end.is_some() {
                return Ok(Some(self.line.as_bytes()));
            }
        }
        if self.line.len() == 0 {
            return Ok(None);
        }
        Ok(Some(self.line.as_bytes()))
    }
}
