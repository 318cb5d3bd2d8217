// Sends jobs of a board that is lent as its words: their points are set to their earliest times. An accepted call
// leaves the words of the board after it, and a refused one the words that came. Words that stand for no sound board are refused with 6.
// It may use call_board (definitions and laws) and the parts of the board; it reads no plant file and no offer.
#![tactic(auto)]

ghost use Rattle.std.specs.Prelude.{◌≡◌, true, ◌≤◌, length};
ghost use Rattle.base_rulings.specs.Order.{refusal_of};
ghost use Rattle.spec_plain.specs.Limits.{most_jobs};
ghost use Rattle.spec_plain.specs.Plain.{unsent_at};
ghost use Rattle.part_lines.specs.ArrayLists.{jobs_of};
ghost use Rattle.part_boardwords.specs.Layout.{count_at, board_size};
ghost use Rattle.part_boardwords.specs.Words.{word_in, held_jobs, board_in, lent_board};
ghost use Rattle.part_boardwords.specs.Codec.{words_of};
ghost use Rattle.part_sound.specs.Sound.{sound};
ghost use Rattle.call_board.specs.Calls.{sent};
ghost use Rattle.call_board.specs.InWords.{words_after};

use base_rulings::{Cause, Ruling};
use part_boardwords::{job_at, layout, read_jobs};
use part_jobwords::{mark_sent, points_in};
use part_linewords::tidy_lines;
use part_settling::freeze;
use part_sound::is_sound;

// Not 18: there is a job at this place, and it is unsent. It is read where it lies.
fn is_unsent(w: &[u32], k: usize) -> bool
    requires { (length w.now ≡ board_size) × (word_in w.now count_at ≤ most_jobs) }
    ensures { result ≡ unsent_at k (jobs_of (held_jobs (word_in w.now))) }
{
    k < w[layout::COUNT_AT] as usize && !job_at(w, k).sent
}

// The unsent jobs up to the place are sent, on a sound board that has an unsent one there.
fn send_up_to(w: &mut [u32], place: usize)
    requires w_len { length w.old ≡ board_size }
    requires w_value { (sound (board_in w.old) ≡ true) × (unsent_at place (jobs_of (held_jobs (word_in w.old))) ≡ true) }
    ensures { w.new ≡ words_of (sent (board_in w.old) place).board }
{
    let count = place + 1;
    let n = points_in(w) as usize + 1;
    let jobs = read_jobs(w);
    freeze(
        &mut w[layout::CELLS_AT..],
        n,
        &jobs.jobs[..jobs.count],
        count,
    );
    mark_sent(w, count);
    tidy_lines(w);
}

// On a sound board: 18, or the words of the board with the unsent jobs up to the place sent.
// Stays: a struct could know of a sound board up to the first write alone, and `send`, which tests it, is the only caller.
fn send_sound(w: &mut [u32], place: u32) -> Result<(), Cause>
    requires w_len { length w.old ≡ board_size }
    requires w_value { sound (board_in w.old) ≡ true }
    ensures ruling { refusal_of result ≡ (sent (board_in w.old) place).ruling }
    ensures words { w.new ≡ words_after w.old (sent (board_in w.old) place) }
{
    if !is_unsent(w, place as usize) {
        return Err(Cause::Plain(18));
    }
    send_up_to(w, place as usize);
    Ok(())
}

// 6 and 18, or the words of the board with the unsent jobs up to the place sent.
pub fn send(w: &mut [u32], place: u32) -> Ruling
    ensures ruling { result ≡ (sent (lent_board w.old) place).ruling }
    ensures words { w.new ≡ words_after w.old (sent (lent_board w.old) place) }
{
    if !is_sound(w) {
        return Ruling::Refused(Cause::Plain(6));
    }
    Ruling::from(send_sound(w, place))
}
