// What ends a replay, and the words that say so.
use log_text::{HexError, read_number};
use std::fmt;

#[derive(Clone, Copy, Debug, PartialEq, Eq)]
pub enum Fault {
    UnknownWord,
    MissingWord,
    ExtraWord,
    NoName,
    BadNumber,
    NoBytes,
    OddHex,
    BadHex,
    ManyBytes,
    BoardBytes,
    ManyRows,
    RowsWritten,
    ManyActions,
    FileSpilt,
    LongLine,
    CarriageReturn,
}

// The fault of a word that is no hex.
impl From<HexError> for Fault {
    fn from(error: HexError) -> Fault {
        match error {
            HexError::Empty => Fault::NoBytes,
            HexError::Odd => Fault::OddHex,
            HexError::BadDigit => Fault::BadHex,
            HexError::NoRoom => Fault::ManyBytes,
        }
    }
}

// What is wrong and what to do. A new word of a log goes into the first message too, and another `layout::BOARD_BYTES` into that of a
// board's bytes: a text is not computed.
impl fmt::Display for Fault {
    fn fmt<W: fmt::Write>(&self, f: &mut fmt::Formatter<W>) -> fmt::Result {
        f.write_str(match self {
            Fault::UnknownWord => {
                "the line begins with no known word: use list, plant, check, part, fact, fresh, board, plan, send, clock, retire, report, table, state or write"
            }
            Fault::MissingWord => {
                "a word is missing: docs/FORMATS.md, Call log, says what the call takes"
            }
            Fault::ExtraWord => {
                "a word or a blank is too many: put one blank between words and none at the end"
            }
            Fault::NoName => "the list has no name: put one after the blank",
            Fault::BadNumber => {
                "the number is not one from 0 to 4294967295: use digits, with no zero in front"
            }
            Fault::NoBytes => "the bytes are missing: use - for no bytes",
            Fault::OddHex => "the hex has an odd number of digits: use two for each byte",
            Fault::BadHex => {
                "the hex has a letter that is no hex digit: use 0-9 and a-f, two for each byte"
            }
            Fault::ManyBytes => "the bytes are too many: use at most 16384",
            Fault::BoardBytes => {
                "the bytes are not as many as a board has: use 23380, four for each of its 5845 words"
            }
            Fault::ManyRows => "the rows are too many: use at most 64",
            Fault::RowsWritten => {
                "the report wrote past its rows: the program is wrong, and its rows are not to be trusted"
            }
            Fault::ManyActions => "the actions are too many: use at most 200",
            Fault::FileSpilt => {
                "the writer wrote past its file: the program is wrong, and its file is not to be trusted"
            }
            Fault::LongLine => "the line is too long: use at most 65535 bytes",
            Fault::CarriageReturn => {
                "the line ends with a carriage return: write the log with line feeds alone"
            }
        })
    }
}

// The number that a word spells.
pub fn number_of(word: &[u8]) -> Result<u32, Fault> {
    read_number(word).ok_or(Fault::BadNumber)
}
