// The numbers of a line, word by word.
ghost use Rattle.std.specs.Prelude.{◌≡◌, length};

use crate::WriteError;
use log_text::read_number;

// The number that the next word spells.
pub fn next_number<'a, I: Iterator<Item = &'a [u8]>>(words: &mut I) -> Result<u32, WriteError>
    requires { (state : I) → I.can_next state }
{
    let word = words.next().ok_or(WriteError::Missing)?;
    read_number(word).ok_or(WriteError::BadNumber)
}

// An action: seven numbers, and three for each of its first four allocations.
pub fn read_action<'a, I: Iterator<Item = &'a [u8]>>(
    words: &mut I,
    action: &mut [u32],
) -> Result<(), WriteError>
    requires can { (state : I) → I.can_next state }
    requires room { length action.old ≡ 19 }
{
    for field in action[..7].iter_mut() {
        *field = next_number(words)?;
    }
    let allocations = action[6].min(4) as usize;
    for field in action[7..7 + 3 * allocations].iter_mut() {
        *field = next_number(words)?;
    }
    Ok(())
}
