// The lines with 0 in every place not in use.
ghost use Rattle.std.specs.Prelude.{◌≡◌, ℕ, ◌≤◌, length, get_or};
ghost use Rattle.spec_plain.specs.Limits.{most_uses};
ghost use Rattle.part_lines.specs.ArrayLists.{line_of, lines_of, no_line, line_from, lines_from};
ghost use Rattle.part_boardwords.specs.Layout.{lines_at, cells_at, line_end};
ghost use Rattle.part_boardwords.specs.Words.{word_in, line_read, lines_read};
ghost use Rattle.part_boardwords.specs.Codec.{line_words, lines_words, overwritten};

use part_boardwords::{clear_uses, line_start};
use spec_plain::limits;

// The line at word `at`, with 0 in every place not in use.
fn tidy_line(w: &mut [u32], at: usize)
    requires { (line_end at ≤ length w.old) × (word_in w.old at ≤ most_uses) }
    ensures { w.new ≡ overwritten w.old at (line_words (line_from (line_of (line_read (word_in w.old) at)))) }
{
    let count = w[at] as usize;
    clear_uses(w, at, count);
}

// The lines of a board, with 0 in every place not in use.
pub fn tidy_lines(w: &mut [u32])
    requires cells_at_in_bounds { cells_at ≤ length w.old }
    requires by_index { (k : ℕ) → (get_or (lines_read (word_in w.old)) k no_line).count ≤ most_uses }
    ensures { w.new ≡ overwritten w.old lines_at (lines_words (lines_from (lines_of (lines_read (word_in w.old))))) }
{
    for k in 0..limits::RESOURCES {
        tidy_line(w, line_start(k));
    }
}
