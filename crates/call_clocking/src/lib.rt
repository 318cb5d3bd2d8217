// Moves the clock of a board that is lent as its words. An accepted call
// leaves the words of the board after it, and a refused one the words that came. Words that stand for no sound board are refused with 6.
// It may use call_board (definitions and laws) and the parts of the board; it reads no plant file and no offer.
#![tactic(auto)]

ghost use Rattle.std.specs.Prelude.{◌≡◌, true, ◌≤◌, length};
ghost use Rattle.base_rulings.specs.Order.{refusal_of};
ghost use Rattle.part_boardwords.specs.Layout.{clock_at, board_size};
ghost use Rattle.part_boardwords.specs.Words.{word_in, settings_read, board_in, lent_board};
ghost use Rattle.part_sound.specs.Sound.{sound};
ghost use Rattle.call_board.specs.Calls.{clocked};
ghost use Rattle.call_board.specs.InWords.{words_after};

use base_rulings::{Cause, Ruling};
use part_boardwords::{layout, settings_in};
use part_jobwords::{points_in, start_rules, write_clock};
use part_linewords::tidy_lines;
use part_settling::try_rules;
use part_sound::is_sound;
use spec_plain::Settings;

// The clock's rules tried on a sound board: 20, or c becomes the clock and p0 of each unsent job is at least c and the lead.
fn move_clock(w: &mut [u32], settings: Settings, c: u32) -> Result<(), Cause>
    requires w_len { length w.old ≡ board_size }
    requires w_value { (sound (board_in w.old) ≡ true) × (settings ≡ settings_read (word_in w.old)) × (word_in w.old clock_at ≤ c) × (c ≤ settings.horizon) }
    ensures ruling { refusal_of result ≡ (clocked (board_in w.old) c).ruling }
    ensures words { w.new ≡ words_after w.old (clocked (board_in w.old) c) }
{
    let n = points_in(w) as usize + 1;
    let rules = start_rules(w, c + settings.lead);
    if !try_rules(&mut w[layout::CELLS_AT..], n, rules.as_slice()) {
        return Err(Cause::Plain(20));
    }
    write_clock(w, c);
    tidy_lines(w);
    Ok(())
}

// On a sound board: 19 and 20, or the words of the board with its clock moved.
// Stays: a struct could know of a sound board up to the first write alone, and `clock`, which tests it, is the only caller.
fn clock_sound(w: &mut [u32], c: u32) -> Result<(), Cause>
    requires w_len { length w.old ≡ board_size }
    requires w_value { sound (board_in w.old) ≡ true }
    ensures ruling { refusal_of result ≡ (clocked (board_in w.old) c).ruling }
    ensures words { w.new ≡ words_after w.old (clocked (board_in w.old) c) }
{
    if c < w[layout::CLOCK_AT] {
        return Err(Cause::Plain(19));
    }
    let settings = settings_in(w);
    if settings.horizon < c {
        return Err(Cause::Plain(19));
    }
    move_clock(w, settings, c)
}

// 6, 19 and 20, or the words of the board with its clock moved.
pub fn clock(w: &mut [u32], c: u32) -> Ruling
    ensures ruling { result ≡ (clocked (lent_board w.old) c).ruling }
    ensures words { w.new ≡ words_after w.old (clocked (lent_board w.old) c) }
{
    if !is_sound(w) {
        return Ruling::Refused(Cause::Plain(6));
    }
    Ruling::from(clock_sound(w, c))
}
