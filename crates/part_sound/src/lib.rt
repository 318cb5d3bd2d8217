// Whether a board is sound. A board comes from outside, so any number may stand anywhere in it: each count is compared with its
// array before the array is walked, and each number with its limit before it is added to another.
//
// Each function is one clause of the test in specs/Sound, or a row of them, on the words of the board where they lie.
// It may use part_gaptest, part_gaps, spec_stn, base_lists, part_lines, spec_plain, part_boardwords and part_jobwords, and rules on soundness alone.
#![tactic(auto)]

mod lining; // the lines
mod sent; // the jobs that were sent
mod sizing; // numbers and jobs

ghost use Rattle.std.specs.Prelude.{◌≡◌, true, ◌≤◌, length};
ghost use Rattle.spec_plain.specs.Limits.{most_jobs, cell_count};
ghost use Rattle.spec_plain.specs.Plain.{total};
ghost use Rattle.part_lines.specs.ArrayLists.{jobs_of};
ghost use Rattle.part_boardwords.specs.Layout.{horizon_at, clock_at, count_at, cells_at, board_size};
ghost use Rattle.part_boardwords.specs.Words.{word_in, settings_read, held_jobs, frame_read, board_in, lent_board};
ghost use Rattle.part_sound.specs.Sound.{all_of, sized_numbers, sized_job, clauses_kept, sound};

use lining::are_lines_sized;
use part_boardwords::{are_marked, layout, settings_in};
use part_gaptest::is_gap_table;
use part_jobwords::points_in;
use sent::{is_sent_first, is_sent_still};
pub use sizing::are_settings_sized;
use sizing::{are_numbers_sized, is_each_sized};
use spec_plain::limits;

// The clauses on points, lines, sent jobs and table, of a board whose numbers and whose jobs are sized. It has n points beside the origin.
fn are_others_kept(w: &[u32], t: &[u32], n: u32) -> bool
    requires cells_at_in_bounds { (cells_at ≤ length w.now) × (length t.now ≡ cell_count) }
    requires clock_at_value { sized_numbers (settings_read (word_in w.now)) (word_in w.now clock_at) ≡ true }
    requires each_sized { (word_in w.now count_at ≤ most_jobs) × (all_of (sized_job (word_in w.now horizon_at)) (jobs_of (held_jobs (word_in w.now))) ≡ true) }
    requires n_value { n ≡ total (jobs_of (held_jobs (word_in w.now))) }
    ensures { result ≡ clauses_kept (frame_read (word_in w.now) t.now) }
{
    n <= limits::MOST_POINTS as u32
        && are_lines_sized(w, n)
        && is_sent_first(w)
        && is_gap_table(t, n as usize + 1, w[layout::HORIZON_AT])
        && is_sent_still(w, t)
}

// The clauses but that on marks, of a board whose table is lent. They come in this order: each keeps the numbers of the next small.
fn are_clauses_kept(w: &[u32], t: &[u32]) -> bool
    requires { (cells_at ≤ length w.now) × (length t.now ≡ cell_count) }
    ensures { result ≡ clauses_kept (frame_read (word_in w.now) t.now) }
{
    are_numbers_sized(settings_in(w), w[layout::CLOCK_AT])
        && w[layout::COUNT_AT] <= limits::MOST_JOBS as u32
        && is_each_sized(w, w[layout::HORIZON_AT])
        && are_others_kept(w, t, points_in(w))
}

// Whether the board of these words is sound. The words are read where they lie.
pub fn is_sound_in(w: &[u32]) -> bool
    requires { length w.now ≡ board_size }
    ensures { result ≡ sound (board_in w.now) }
{
    are_marked(w) && are_clauses_kept(w, &w[layout::CELLS_AT..])
}

// Whether the words that are lent stand for a sound board. Words of another number than a board's do not.
pub fn is_sound(w: &[u32]) -> bool
    ensures { result ≡ sound (lent_board w.now) }
{
    w.len() == layout::BOARD_WORDS && is_sound_in(w)
}
