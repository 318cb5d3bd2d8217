// The ruling on actions lent as words, and where their records end: 2, then 3 and 4 action by action.
ghost use Rattle.std.specs.Prelude.{◌≡◌, ◌+◌, ◌*◌, ◌≤◌, ◌<◌, ◌/◌, length, get_or};
ghost use Rattle.base_lists.specs.Loops.{build};
ghost use Rattle.write_plant.specs.Written.{out_of, some_out_of_range, bad_fields};
ghost use Rattle.write_plant.specs.Lent.{allocation_in, action_from, action_in};
ghost use Rattle.write_plant.specs.Parts.{action_ends, records_end, lent_end};

use base_masks::overlap;
use base_rulings::Cause;
use read_plant::{is_bad_duration, is_out_of_range};

// The words of an action: seven numbers, and three for each of four allocations.
pub const ACTION_WORDS: usize = 19;

fn is_out_at(w: &[u32], at: usize) -> bool
    requires { at + 3 ≤ length w.now }
    ensures { result ≡ out_of (allocation_in w.now at) }
{
    is_out_of_range(w[at], w[at + 1], w[at + 2])
}

// Whether one of the n allocations whose words begin at `at` is out of range.
fn is_some_out(w: &[u32], at: usize, n: usize) -> bool
    requires { at + 3 * n ≤ length w.now }
    ensures { result ≡ some_out_of_range (build (λ k. allocation_in w.now (at + 3 * k)) n) }
{
    (0..n).any(|k| is_out_at(w, at + 3 * k))
}

// Refusal 4 of the action whose words begin at `at`, with n allocations.
fn is_bad_fields(w: &[u32], at: usize, n: usize) -> bool
    requires { (at + 19 ≤ length w.now) × (n ≡ get_or w.now (at + 6) 0) × (n ≤ 4) }
    ensures { result ≡ bad_fields (action_from w.now at) }
{
    overlap(w[at], w[at + 1])
        || overlap(w[at + 2], w[at + 3])
        || is_bad_duration(w[at + 4], w[at + 5])
        || is_some_out(w, at + 7, n)
}

// Reads an action, whose record starts at `start`: 3, then 4, or where the record ends.
fn read_action(w: &[u32], action: u32, start: usize) -> Result<usize, Cause>
    requires { (19 * action + 19 ≤ length w.now) × (start ≤ 76 * action) × (action < 128) }
    ensures { result ≡ action_ends (action_in w.now action) action start }
{
    let at = ACTION_WORDS * (action as usize);
    let n = w[at + 6] as usize;
    if 4 < n {
        return Err(Cause::Action(3, action));
    }
    if is_bad_fields(w, at, n) {
        return Err(Cause::Action(4, action));
    }
    Ok(start + 28 + 12 * n)
}

// Reads the actions one after the other. The first that fails ends the reading.
fn read_actions(w: &[u32], count: u32) -> Result<usize, Cause>
    requires { (19 * count ≤ length w.now) × (count ≤ 128) }
    ensures { result ≡ records_end w.now count }
{
    let mut at = 0;
    for action in 0..count {
        let answer = read_action(w, action, at);
        // Stays: document 01 names this form, in place of `?`.
        let Ok(end) = answer else {
            return answer;
        };
        at = end;
    }
    Ok(at)
}

// The first of refusals 2, 3 and 4, or where the records end.
pub fn measure(w: &[u32]) -> Result<usize, Cause>
    ensures { result ≡ lent_end w.now }
{
    if w.len() % ACTION_WORDS != 0 {
        return Err(Cause::Plain(2));
    }
    let count = w.len() / ACTION_WORDS;
    if !(1..=128).contains(&count) {
        return Err(Cause::Plain(2));
    }
    read_actions(w, count as u32)
}
