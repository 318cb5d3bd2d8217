// Whether points that leave are over by the clock in every timetable: the last of them, and each use of them. The rules that say so are not
// collected: each is looked up in the table where it would be made.
ghost use Rattle.std.specs.Prelude.{◌≡◌, [], ◌∷◌, ◌+◌, ◌-◌, ◌≤◌, length};
ghost use Rattle.spec_plain.specs.Limits.{most_uses};
ghost use Rattle.spec_plain.specs.Plain.{tray_gap, over_by, ends_by, all_end_by};
ghost use Rattle.part_lines.specs.ArrayLists.{line_of, lines_of};
ghost use Rattle.part_lines.specs.Asked.{Short, AllShort, Lined};
ghost use Rattle.spec_stn.specs.Table.{entails_all};
ghost use Rattle.part_gaps.specs.Cells.{table_of};
ghost use Rattle.part_boardwords.specs.Layout.{cells_at, line_end};
ghost use Rattle.part_boardwords.specs.Words.{word_in, line_read, lines_read};
ghost use Rattle.call_retiring.specs.Ending.{InReach};

use part_boardwords::{line_start, use_at};
use part_gaps::BIAS;
use part_lines::{end_of, goes, tray_gap};
use spec_plain::{Settings, Use, limits};

// Points that leave, the m points from f on, with the table that holds their times.
#[derive(Clone, Copy)]
pub struct Leaving<'a> {
    pub table: &'a [u32],
    pub settings: Settings,
    pub clock: u32,
    pub f: u32,
    pub m: u32,
    pub ghost reach: { InReach table.now clock f m },
}

impl Leaving<'_> {
    // A use of a point that leaves ends by the clock; nothing is asked of one that stays.
    fn use_ends(self, u: Use) -> bool
        requires { Short u }
        ensures { result ≡
            entails_all (table_of self.entry.table.now) (ends_by self.entry.settings self.entry.clock self.entry.f self.entry.m (u ∷ [])) }
    {
        if !goes(self.f, self.m, u.point) {
            return true;
        }
        let at = u.point as usize;
        self.table[at] + end_of(self.settings, u) <= BIAS + self.clock
    }

    // Each use of the line at word `at`.
    fn line_ends(self, w: &[u32], at: usize) -> bool
        requires { (line_end at ≤ length w.now) × (word_in w.now at ≤ most_uses)
            × AllShort (line_of (line_read (word_in w.now) at)) }
        ensures { result ≡
            entails_all (table_of self.entry.table.now)
            (ends_by self.entry.settings self.entry.clock self.entry.f self.entry.m (line_of (line_read (word_in w.now) at))) }
    {
        let count = w[at] as usize;
        // Stays: with `all` the proof did not close: that a use which the closure reads is `Short` stayed open (`all-requires-clause-callable`).
        for k in 0..count {
            let u = use_at(w, at, k);
            if !self.use_ends(u) {
                return false;
            }
        }
        true
    }

    // Each use of all lines of a board, read where they lie in its words.
    fn lines_end(self, w: &[u32]) -> bool
        requires { (cells_at ≤ length w.now) × Lined (lines_read (word_in w.now)) }
        ensures { result ≡
            entails_all (table_of self.entry.table.now)
            (all_end_by self.entry.settings self.entry.clock self.entry.f self.entry.m (lines_of (lines_read (word_in w.now)))) }
    {
        // Stays: see `line_ends`; with `all` it stayed open that what the closure asks of a line holds of each.
        for k in 0..limits::RESOURCES {
            if !self.line_ends(w, line_start(k)) {
                return false;
            }
        }
        true
    }

    // The last point of those that leave, with the tray gap, and each use of them end by the clock.
    pub fn are_over(self, w: &[u32]) -> bool
        requires { (1 ≤ self.m) × (cells_at ≤ length w.now) × Lined (lines_read (word_in w.now)) }
        ensures { result ≡
            entails_all (table_of self.entry.table.now)
            (over_by (self.entry.f + self.entry.m - 1) (tray_gap self.entry.settings) self.entry.clock
            ∷ all_end_by self.entry.settings self.entry.clock self.entry.f self.entry.m (lines_of (lines_read (word_in w.now)))) }
    {
        let last = (self.f + self.m - 1) as usize;
        if BIAS + self.clock < self.table[last] + tray_gap(self.settings) {
            return false;
        }
        self.lines_end(w)
    }
}
