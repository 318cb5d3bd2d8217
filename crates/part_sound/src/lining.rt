// The lines: how many uses they hold, and whether each is within the limits and hangs on a live point.
ghost use Rattle.std.specs.Prelude.{◌≡◌, ◌≤◌, length};
ghost use Rattle.spec_plain.specs.Limits.{most_uses};
ghost use Rattle.part_lines.specs.ArrayLists.{line_of};
ghost use Rattle.part_boardwords.specs.Layout.{cells_at, line_end};
ghost use Rattle.part_boardwords.specs.Words.{word_in, line_read, lines_read};
ghost use Rattle.part_sound.specs.Sound.{all_of, sized_use, sized_line};

use part_boardwords::{line_start, use_at};
use spec_plain::{Use, limits};

// Stays: every use of a board is tested at every call, and with `contains` and `all` a line of eight uses takes 1.7 times as long.
fn is_use_sized(u: Use, n: u32) -> bool
    ensures { result ≡ sized_use n u }
{
    (1 <= u.point)
        & (u.point <= n)
        & (u.offset <= 1_000_000)
        & (1 <= u.length)
        & (u.length <= 1_000_000)
}

// The uses in use of the line at word `at`.
fn are_uses_sized(w: &[u32], at: usize, n: u32) -> bool
    requires { (line_end at ≤ length w.now) × (word_in w.now at ≤ most_uses) }
    ensures { result ≡ all_of (sized_use n) (line_of (line_read (word_in w.now) at)) }
{
    let count = w[at] as usize;
    let mut ok = true;
    // Stays: see `is_use_sized`. No branch is taken for a use.
    for k in 0..count {
        ok &= is_use_sized(use_at(w, at, k), n);
    }
    ok
}

fn is_line_sized(w: &[u32], at: usize, n: u32) -> bool
    requires { line_end at ≤ length w.now }
    ensures { result ≡ sized_line n (line_read (word_in w.now) at) }
{
    w[at] <= limits::MOST_USES as u32 && are_uses_sized(w, at, n)
}

pub fn are_lines_sized(w: &[u32], n: u32) -> bool
    requires { cells_at ≤ length w.now }
    ensures { result ≡ all_of (sized_line n) (lines_read (word_in w.now)) }
{
    (0..limits::RESOURCES).all(|k| is_line_sized(w, line_start(k), n))
}
