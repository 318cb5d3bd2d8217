// Which times the picture shows, and how wide a column is: the narrowest round width with which it has at most 80 columns.
ghost use Rattle.std.specs.Prelude.{◌≡◌, ◌≤◌, ◌<◌, get_or, length};
ghost use Rattle.part_lines.specs.ArrayLists.{line_of};
ghost use Rattle.part_gaps.specs.Cells.{table_of};
ghost use Rattle.part_boardwords.specs.Layout.{clock_at, line_end};
ghost use Rattle.part_boardwords.specs.Words.{word_in, line_read, lines_read};
ghost use Rattle.log_chart.specs.Chart.{OnTable, Scaled, begin_of, first_time, fits, last_end, last_time, lines_end, scale_of, width_of, widths};

use crate::board::Board;
use part_boardwords::{layout, line_start, use_at};
use part_gaps::earliest;
use spec_plain::limits;

const WIDTHS: [u64; 20] = [
    1, 2, 5, 10, 20, 50, 100, 200, 500, 1000, 2000, 5000, 10000, 20000, 50000, 100000, 200000,
    500000, 1000000, 2000000,
];

// The first time that the picture shows, the last that it has to show, and the width of a column.
#[derive(Clone, Copy)]
pub struct Scale {
    pub begin: u64,
    pub end: u64,
    pub column: u64,
}

impl<'a> Board<'a> {
    // ---- the span

    // The least of a time and of the earliest times of the live points.
    fn first_time(&self, time: u64) -> u64
        ensures { (result ≡ first_time (table_of self.now.t.now) self.now.points time) × (result ≤ time) }
    {
        let t = self.t;
        let mut first = time;
        for k in 0..self.points {
            first = first.min(u64::from(earliest(t, k + 1)));
        }
        first
    }

    // The largest of the same.
    fn last_time(&self, time: u64) -> u64
        ensures { result ≡ last_time (table_of self.now.t.now) self.now.points time }
    {
        let t = self.t;
        let mut last = time;
        for k in 0..self.points {
            last = last.max(u64::from(earliest(t, k + 1)));
        }
        last
    }

    // The largest of a time and of the ends of the uses of the line at word `at`.
    pub fn last_end(&self, at: usize, time: u64) -> u64
        requires { (line_end at ≤ length self.now.w.now) × OnTable (word_in self.now.w.now) at }
        ensures { result ≡ last_end (table_of self.now.t.now) (line_of (line_read (word_in self.now.w.now) at)) time }
    {
        let w = self.w;
        let count = w[at] as usize;
        let mut last = time;
        for k in 0..count {
            let u = use_at(w, at, k);
            last = last.max(self.end(u));
        }
        last
    }

    fn lines_end(&self, time: u64) -> u64
        ensures { result ≡ lines_end (table_of self.now.t.now) (lines_read (word_in self.now.w.now)) time }
    {
        let mut last = time;
        for k in 0..limits::RESOURCES {
            last = self.last_end(line_start(k), last);
        }
        last
    }

    // The scale of the board.
    pub fn scale(&self) -> Scale
        ensures { (result ≡ scale_of (table_of self.now.t.now) self.now.points (lines_read (word_in self.now.w.now)) (word_in self.now.w.now clock_at))
            × Scaled result }
    {
        let w = self.w;
        let now = u64::from(w[layout::CLOCK_AT]);
        let left = self.first_time(now);
        let right = self.lines_end(self.last_time(now));
        let width = width_of(left, right);
        Scale {
            begin: begin_of(left, width),
            end: right,
            column: width,
        }
    }
}

// ---- the width

// A multiple of ten columns, so that the times that are written are round.
fn begin_of(left: u64, width: u64) -> u64
    requires { (1 ≤ width) × (width ≤ 2000000) }
    ensures { (result ≡ begin_of left width) × (result ≤ left) }
{
    left - left % (10 * width)
}

fn is_fit(left: u64, right: u64, width: u64) -> bool
    requires { (left ≤ 4294967295) × (1 ≤ width) × (width ≤ 2000000) }
    ensures { result ≡ fits left right width }
{
    right < begin_of(left, width) + 80 * width
}

// The widest holds every board's times: they end by 102,000,000.
fn width_of(left: u64, right: u64) -> u64
    requires { left ≤ 4294967295 }
    ensures { (result ≡ width_of left right) × (1 ≤ result) × (result ≤ 2000000) }
{
    WIDTHS
        .iter()
        .copied()
        .find(|width| is_fit(left, right, *width))
        .unwrap_or(2000000)
}
