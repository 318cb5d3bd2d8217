// A sound board that is drawn: when a use is under way at its earliest, and whose it is.
ghost use Rattle.std.specs.Prelude.{◌≡◌, ℕ, cond, ◌≤◌, ◌<◌, true, length};
ghost use Rattle.spec_plain.specs.Limits.{cell_count, most_jobs, most_points};
ghost use Rattle.spec_plain.specs.Plain.{total};
ghost use Rattle.part_lines.specs.ArrayLists.{jobs_of, line_of};
ghost use Rattle.part_lines.specs.Asked.{Sized};
ghost use Rattle.part_gaps.specs.Cells.{table_of};
ghost use Rattle.part_boardwords.specs.Layout.{board_size, count_at, line_end};
ghost use Rattle.part_boardwords.specs.Words.{word_in, board_in, cells_read, held_jobs, job_at, line_read};
ghost use Rattle.part_sound.specs.Sound.{sound};
ghost use Rattle.log_chart.specs.Chart.{AllOnTable, OnTable, covers, end_time, glyph_of, job_of, glyph_over, start_time};

use part_boardwords::{job_at, layout, use_at};
use part_gaps::earliest;
use part_jobwords::points_in;
use spec_plain::Use;

// The words of the board, its table, and how many points are live beside the origin; of what soundness says, what drawing needs.
#[derive(Clone, Copy)]
pub struct Board<'a> {
    pub w: &'a [u32],
    pub t: &'a [u32],
    pub points: usize,
    ghost words: { length w.now ≡ board_size },
    ghost table: { length t.now ≡ cell_count },
    ghost few: { points ≤ most_points },
    ghost jobs: { Sized (held_jobs (word_in w.now)) },
    ghost some: { (k : ℕ) → k < word_in w.now count_at → 1 ≤ (job_at (word_in w.now) k).points },
    ghost lines: { AllOnTable (word_in w.now) },
}

impl<'a> Board<'a> {
    pub fn of(w: &'a [u32]) -> Board<'a>
        requires { (length w.now ≡ board_size) × (sound (board_in w.now) ≡ true) }
        ensures { (result.w.now ≡ w.now) × (result.t.now ≡ cells_read (word_in w.now)) × (result.points ≡ total (jobs_of (held_jobs (word_in w.now)))) }
    {
        let points = points_in(w) as usize;
        Board {
            w,
            t: &w[layout::CELLS_AT..],
            points,
        }
    }

    // ---- uses

    // The place of the job that the point x belongs to.
    fn job_of(&self, x: u32) -> usize
        ensures { (result ≡ job_of (jobs_of (held_jobs (word_in self.now.w.now))) x) × (result ≤ most_jobs) }
    {
        let w = self.w;
        let count = w[layout::COUNT_AT] as usize;
        let mut k = x;
        for place in 0..count {
            let job = job_at(w, place);
            if k <= job.points {
                return place;
            }
            k -= job.points;
        }
        count
    }

    fn start(&self, u: Use) -> u64
        requires { u.point ≤ most_points }
        ensures { (result ≡ start_time (table_of self.now.t.now) u) × (result < 8589934592) }
    {
        let t = self.t;
        u64::from(earliest(t, u.point as usize)) + u64::from(u.offset)
    }

    pub fn end(&self, u: Use) -> u64
        requires { u.point ≤ most_points }
        ensures { result ≡ end_time (table_of self.now.t.now) u }
    {
        self.start(u) + u64::from(u.length)
    }

    // Whether the use is under way at some time from `from` on and before `to`.
    fn is_covering(&self, u: Use, from: u64, to: u64) -> bool
        requires { u.point ≤ most_points }
        ensures { result ≡ covers (table_of self.now.t.now) from to u }
    {
        self.start(u) < to && from < self.end(u)
    }

    // The mark of the use where it covers the times, and else the mark that stands there.
    fn mark_over(&self, u: Use, from: u64, to: u64, mark: char) -> char
        requires { u.point ≤ most_points }
        ensures { result ≡ cond (covers (table_of self.now.t.now) from to u)
            (glyph_of (job_of (jobs_of (held_jobs (word_in self.now.w.now))) u.point)) mark }
    {
        if self.is_covering(u, from, to) {
            return glyph(self.job_of(u.point));
        }
        mark
    }

    // The mark of a column, that of the times from `from` on and before `to`, in the line at word `at`; a blank where no use covers it. Where columns
    // are wide two uses can share one: it shows the later in the line.
    pub fn mark_at(&self, at: usize, from: u64, to: u64) -> char
        requires { (line_end at ≤ length self.now.w.now) × OnTable (word_in self.now.w.now) at }
        ensures { result ≡ glyph_over (table_of self.now.t.now) (jobs_of (held_jobs (word_in self.now.w.now)))
            (line_of (line_read (word_in self.now.w.now) at)) from to 32 }
    {
        let w = self.w;
        let count = w[at] as usize;
        let mut mark = ' ';
        for k in 0..count {
            let u = use_at(w, at, k);
            mark = self.mark_over(u, from, to, mark);
        }
        mark
    }
}

// The mark of the job at a place: 0 to 9, then a to f.
pub fn glyph(place: usize) -> char
    requires { place ≤ most_jobs }
    ensures { result ≡ glyph_of place }
{
    char::from_digit(place as u32, 36).unwrap()
}
