// Uses put into their lines, where they lie.
ghost use Rattle.std.specs.Prelude.{◌≡◌, ◌≤◌, ◌<◌, length};
ghost use Rattle.spec_plain.specs.Limits.{most_points, most_uses};
ghost use Rattle.spec_plain.specs.Plain.{inserted};
ghost use Rattle.part_lines.specs.ArrayLists.{line_of, line_from, lines_from};
ghost use Rattle.part_lines.specs.Asked.{Ready};
ghost use Rattle.part_lines.specs.Placing.{all_with, AllFit};
ghost use Rattle.part_boardwords.specs.Layout.{lines_at, cells_at, line_end};
ghost use Rattle.part_boardwords.specs.Words.{word_in, line_read, lines_read, lines_in};
ghost use Rattle.part_boardwords.specs.Codec.{lines_words, overwritten};
ghost use Rattle.part_linewords.specs.Beside.{Tidy, Beside};

use part_allocations::{Allocations, used_from};
use part_boardwords::{line_start, move_uses_up, write_use};
use spec_plain::Use;

// The line at word `at` with a use put in after `place` others. Those behind it move up by one.
fn insert(w: &mut [u32], at: usize, place: usize, u: Use)
    requires at_in_bounds { (line_end at ≤ length w.old) × (place ≤ word_in w.old at) × (word_in w.old at < most_uses) }
    requires tidy { Tidy (line_read (word_in w.old) at) }
    ensures line { line_read (word_in w.new) at ≡ line_from (inserted place u (line_of (line_read (word_in w.old) at))) }
    ensures others { Beside at (word_in w.old) (word_in w.new) }
{
    let count = w[at];
    move_uses_up(w, at, place, count as usize);
    write_use(w, at, place, u);
    w[at] = count + 1;
}

// The uses of an offer's allocations put into their lines, which have 0 in every place not in use. It asks that none of them is stopped by 15 or 16.
pub fn insert_all(w: &mut [u32], first: u32, allocations: Allocations)
    requires cells_at_in_bounds { (cells_at ≤ length w.old) × Ready (lines_read (word_in w.old)) × (first ≤ most_points) }
    requires all_fit { AllFit first (lines_in w.old) allocations.list.now }
    ensures { w.new ≡ overwritten w.old lines_at (lines_words (lines_from
        (all_with first (lines_in w.old) allocations.entry.list.now))) }
{
    for allocation in allocations.list {
        insert(
            w,
            line_start(allocation.resource as usize),
            allocation.place as usize,
            used_from(first, *allocation),
        );
    }
}
