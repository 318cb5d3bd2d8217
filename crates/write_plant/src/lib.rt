// Plant files written, of actions lent as words: refusals 2, 3, 4 and 22, and the file in a lent buffer. It may use base_words, base_masks, base_rulings,
// base_lists and read_plant.
#![tactic(auto)]

mod filing; // the parts of a file, put into a buffer
mod ruling; // which actions are refused, and where their records end

ghost use Rattle.std.specs.Prelude.{◌≡◌, length};
ghost use Rattle.std.specs.Result.{result_unwrap_or};
ghost use Rattle.base_rulings.specs.Order.{refusal_of};
ghost use Rattle.write_plant.specs.Lent.{write_ruling, written_length, written_into};

use crate::filing::put_file;
use crate::ruling::measure;
use base_rulings::Cause;
pub use ruling::ACTION_WORDS;

// Writes the plant file of the actions, ACTION_WORDS each, into the front of a lent buffer, and says how long it is: 2, then 3 and 4 action by action,
// then 22. The rest of the buffer stays, and all of it where refused.
pub fn write_plant(actions: &[u32], plant: &mut [u8]) -> Result<usize, Cause>
    ensures ruling { refusal_of result ≡ write_ruling actions.now (length plant.old) }
    ensures length { result_unwrap_or result 0 ≡ written_length actions.now (length plant.old) }
    ensures plant { plant.new ≡ written_into actions.now plant.old }
{
    let index = measure(actions)?;
    let count = actions.len() / ACTION_WORDS;
    let length = index + 4 * count + 12;
    if plant.len() < length {
        return Err(Cause::Plain(22));
    }
    put_file(plant, actions, count, index);
    Ok(length)
}
