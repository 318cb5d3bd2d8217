// Retires the oldest job of a board that is lent as its words: it leaves the list, the lines and the table. An accepted call
// leaves the words of the board after it, and a refused one the words that came. Words that stand for no sound board are refused with 6.
// It may use call_board (definitions and laws) and the parts of the board; it reads no plant file and no offer.
#![tactic(auto)]

mod ending; // whether points that leave are over by the clock

ghost use Rattle.std.specs.Prelude.{◌≡◌, true, ◌∷◌, ◌+◌, ◌-◌, ◌≤◌, length};
ghost use Rattle.base_rulings.specs.Order.{refusal_of};
ghost use Rattle.spec_plain.specs.Plain.{tray_gap, over_by, all_end_by};
ghost use Rattle.part_lines.specs.ArrayLists.{lines_of};
ghost use Rattle.part_lines.specs.Asked.{Lined};
ghost use Rattle.spec_stn.specs.Table.{entails_all};
ghost use Rattle.part_gaps.specs.Cells.{table_of};
ghost use Rattle.call_retiring.specs.Ending.{InReach};
ghost use Rattle.part_boardwords.specs.Layout.{clock_at, count_at, board_size};
ghost use Rattle.part_boardwords.specs.Words.{word_in, settings_read, job_at, lines_read, cells_read, board_in, lent_board};
ghost use Rattle.part_sound.specs.Sound.{sound};
ghost use Rattle.call_board.specs.Calls.{retired};
ghost use Rattle.call_board.specs.InWords.{words_after};

use crate::ending::Leaving;
use base_rulings::{Cause, Ruling};
use part_boardwords::{job_at, layout, settings_in};
use part_gaps::drop_points;
use part_jobwords::{drop_oldest, points_in};
use part_linewords::stay_lines;
use part_sound::is_sound;

// The m points from 1 on are over by the clock, with the tray gap.
fn is_over(w: &[u32], m: u32) -> bool
    requires w_len { length w.now ≡ board_size }
    requires in_reach { InReach (cells_read (word_in w.now)) (word_in w.now clock_at) 1 m × (1 ≤ m) × Lined (lines_read (word_in w.now)) }
    ensures { result ≡
        entails_all (table_of (cells_read (word_in w.now)))
        (over_by (1 + m - 1) (tray_gap (settings_read (word_in w.now))) (word_in w.now clock_at)
        ∷ all_end_by (settings_read (word_in w.now)) (word_in w.now clock_at) 1 m (lines_of (lines_read (word_in w.now)))) }
{
    let leaving = Leaving {
        table: &w[layout::CELLS_AT..],
        settings: settings_in(w),
        clock: w[layout::CLOCK_AT],
        f: 1,
        m,
    };
    leaving.are_over(w)
}

// The oldest job, which was sent, on a sound board: 21, or the board without it. Its points are those from 1 on.
fn retire_sent(w: &mut [u32]) -> Result<(), Cause>
    requires w_len { length w.old ≡ board_size }
    requires w_value { (sound (board_in w.old) ≡ true) × (1 ≤ word_in w.old count_at) × ((job_at (word_in w.old) 0).sent ≡ true) }
    ensures ruling { refusal_of result ≡ (retired (board_in w.old)).ruling }
    ensures words { w.new ≡ words_after w.old (retired (board_in w.old)) }
{
    let n = points_in(w) as usize + 1;
    let oldest = job_at(w, 0);
    let m = oldest.points;
    if !is_over(w, m) {
        return Err(Cause::Plain(21));
    }
    drop_points(&mut w[layout::CELLS_AT..], 1, m as usize, n);
    drop_oldest(w);
    stay_lines(w, 1, m);
    Ok(())
}

// On a sound board: 21, or the words of the board without its oldest job.
// Stays: a struct could know of a sound board up to the first write alone, and `retire`, which tests it, is the only caller.
fn retire_sound(w: &mut [u32]) -> Result<(), Cause>
    requires w_len { length w.old ≡ board_size }
    requires w_value { sound (board_in w.old) ≡ true }
    ensures ruling { refusal_of result ≡ (retired (board_in w.old)).ruling }
    ensures words { w.new ≡ words_after w.old (retired (board_in w.old)) }
{
    if w[layout::COUNT_AT] == 0 {
        return Err(Cause::Plain(21));
    }
    let oldest = job_at(w, 0);
    if !oldest.sent {
        return Err(Cause::Plain(21));
    }
    retire_sent(w)
}

// 6 and 21, or the words of the board without its oldest job.
pub fn retire(w: &mut [u32]) -> Ruling
    ensures ruling { result ≡ (retired (lent_board w.old)).ruling }
    ensures words { w.new ≡ words_after w.old (retired (lent_board w.old)) }
{
    if !is_sound(w) {
        return Ruling::Refused(Cause::Plain(6));
    }
    Ruling::from(retire_sound(w))
}
