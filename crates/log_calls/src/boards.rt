// A board's settings and its words, as a line gives them.
ghost use Rattle.std.specs.Prelude.{◌≡◌, length};
ghost use Rattle.base_lists.specs.Loops.{build};
ghost use Rattle.part_boardwords.specs.Layout.{board_size, board_bytes};
ghost use Rattle.log_calls.specs.Bytes.{word_at};

use crate::faults::{Fault, number_of};
use base_words::u32_at;
use log_text::{HexError, Text};
use part_boardwords::{BOARD_BYTES, BOARD_WORDS};
use spec_plain::Settings;

// The settings of a fresh board, from two numbers.
pub fn settings_of(words: &[u8]) -> Result<Settings, Fault> {
    let mut words = words.split(|b| *b == b' ');
    let horizon = number_of(words.next().unwrap_or(b""))?;
    let lead = number_of(words.next().unwrap_or(b""))?;
    Ok(Settings { horizon, lead })
}

// A board made by hand, from its words: every one as it is given. Bytes of another number leave the board as it was.
pub fn store_board(board: &mut [u32; BOARD_WORDS], hex: &[u8]) -> Result<(), Fault> {
    let mut bytes: Text<BOARD_BYTES> = Text::new();
    bytes.set_hex(hex).map_err(board_fault)?;
    let bytes = bytes.as_bytes();
    if bytes.len() != BOARD_BYTES {
        return Err(Fault::BoardBytes);
    }
    store_words(board, bytes);
    Ok(())
}

// The words that these bytes hold.
// Stays: a loop over `iter_mut` and `zip` leaves open what stands in `w` after it, as was seen of the pairs of log_text's hex.
fn store_words(w: &mut [u32; BOARD_WORDS], bytes: &[u8])
    requires { length bytes.now ≡ board_bytes }
    ensures { w.new ≡ build (word_at bytes.now) board_size }
{
    for k in 0..BOARD_WORDS {
        w[k] = u32_at(bytes, 4 * k);
    }
}

// The fault of a word that is no board's hex: too many bytes are not a board's number of them.
fn board_fault(error: HexError) -> Fault {
    match error {
        HexError::NoRoom => Fault::BoardBytes,
        error => Fault::from(error),
    }
}
