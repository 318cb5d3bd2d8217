// The lines without the uses of points that leave, the m points from f on.
ghost use Rattle.std.specs.Prelude.{◌≡◌, map, ℕ, ◌+◌, ◌≤◌, length, get_or, take};
ghost use Rattle.spec_plain.specs.Limits.{most_uses, side};
ghost use Rattle.spec_plain.specs.Plain.{staying};
ghost use Rattle.part_lines.specs.ArrayLists.{line_of, lines_of, no_line, line_from, lines_from};
ghost use Rattle.part_boardwords.specs.Layout.{lines_at, cells_at, line_end};
ghost use Rattle.part_boardwords.specs.Words.{word_in, uses_read, line_read, lines_read};
ghost use Rattle.part_boardwords.specs.Codec.{line_words, lines_words, overwritten};
ghost use Rattle.part_linewords.specs.Thinned.{Thinned};

use part_boardwords::{clear_uses, line_start, use_at, write_use};
use part_lines::staying;
use spec_plain::limits;

// What stays of the first `count` uses of the line at word `at`, moved to the front, and how many. Each use that stays is written behind those
// that do, so none is written over before it is read.
fn stay_uses(w: &mut [u32], at: usize, count: usize, f: u32, m: u32) -> usize
    requires { (line_end at ≤ length w.old) × (count ≤ most_uses) × (f + m ≤ side) }
    ensures size { result ≡ length (staying f m (take count (uses_read (word_in w.old) at))) }
    ensures few { result ≤ count }
    ensures words { Thinned w.old w.new at count (staying f m (take count (uses_read (word_in w.old) at))) }
{
    let mut next = 0;
    for k in 0..count {
        if let Some(u) = staying(use_at(w, at, k), f, m) {
            write_use(w, at, next, u);
            next += 1;
        }
    }
    next
}

// The line at word `at` without the uses of points that leave.
fn stay_line(w: &mut [u32], at: usize, f: u32, m: u32)
    requires { (line_end at ≤ length w.old) × (word_in w.old at ≤ most_uses) × (f + m ≤ side) }
    ensures { w.new ≡ overwritten w.old at (line_words (line_from (staying f m (line_of (line_read (word_in w.old) at))))) }
{
    let count = w[at] as usize;
    let left = stay_uses(w, at, count, f, m);
    w[at] = left as u32;
    clear_uses(w, at, left);
}

// The lines of a board without the uses of points that leave.
pub fn stay_lines(w: &mut [u32], f: u32, m: u32)
    requires cells_at_in_bounds { cells_at ≤ length w.old }
    requires by_index { (k : ℕ) → (get_or (lines_read (word_in w.old)) k no_line).count ≤ most_uses }
    requires m_bound { f + m ≤ side }
    ensures { w.new ≡ overwritten w.old lines_at (lines_words (lines_from
        (map (staying f m) (lines_of (lines_read (word_in w.old)))))) }
{
    for k in 0..limits::RESOURCES {
        stay_line(w, line_start(k), f, m);
    }
}
