// Text in fixed memory: what is written, bytes as hex, decimal numbers, and places in a slice.
//
// It may use base_lists and, of the kit's `io`, the spelling of digits: nothing here reads or writes a file. No public
// function has a `requires`: bytes for which there is no room are left out.
#![tactic(auto)]

mod hexadecimal;
mod number;
mod output;
mod search;

pub use hexadecimal::{Hex, HexError, decode_hex};
pub use number::read_number;
pub use output::Text;
pub use search::{count, find};
