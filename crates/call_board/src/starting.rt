// A fresh board.
ghost use Rattle.std.specs.Prelude.{◌≡◌};
ghost use Rattle.call_board.specs.InWords.{fresh_ruling, fresh_words};

use base_rulings::{Cause, Ruling};
use part_boardwords::layout;
use part_gaps::BIAS;
use part_sound::are_settings_sized;
use spec_plain::Settings;

// A board with these settings, clock 0 and the origin, whatever the words held; or 5, and all zeros, so that no sound board is left to a caller
// who misses it. Another number of words is 6, and nothing is written.
pub fn fresh(w: &mut [u32], s: Settings) -> Ruling
    ensures ruling { result ≡ fresh_ruling s w.old }
    ensures words { w.new ≡ fresh_words s w.old }
{
    if w.len() != layout::BOARD_WORDS {
        return Ruling::Refused(Cause::Plain(6));
    }
    w.fill(0);
    if !are_settings_sized(s) {
        return Ruling::Refused(Cause::Plain(5));
    }
    w[layout::HORIZON_AT] = s.horizon;
    w[layout::LEAD_AT] = s.lead;
    w[layout::CELLS_AT] = BIAS;
    Ruling::Accepted
}
