// The parts of a board read from its words, each number a word, by the definition in specs/Words.
ghost use Rattle.std.specs.Prelude.{◌≡◌, ◌+◌, ◌*◌, ◌≤◌, ◌<◌, length};
ghost use Rattle.spec_plain.specs.Limits.{most_jobs, most_uses, side};
ghost use Rattle.part_boardwords.specs.Layout.{job_size, use_size, cells_at, board_size, line_end};
ghost use Rattle.part_boardwords.specs.Words.{word_in, settings_read, job_read, job_at, jobs_read, use_read, use_at, cell_at, is_marked, all_marked, held_jobs};

use crate::layout;
use part_lines::Jobs;
use spec_plain::{Job, Settings, Use, limits};
use std::array;

// ---- settings, jobs, uses and cells

// What the board was made with.
pub fn settings_in(s: &[u32]) -> Settings
    requires { cells_at ≤ length s.now }
    ensures { result ≡ settings_read (word_in s.now) }
{
    Settings {
        horizon: s[layout::HORIZON_AT],
        lead: s[layout::LEAD_AT],
    }
}

fn read_job(s: &[u32], at: usize) -> Job
    requires { at + job_size ≤ length s.now }
    ensures { result ≡ job_read (word_in s.now) at }
{
    Job {
        points: s[at],
        batch: s[at + layout::BATCH_IN],
        sent: s[at + layout::SENT_IN] == 1,
        due: s[at + layout::DUE_IN],
    }
}

// Job k, in use or not.
pub fn job_at(s: &[u32], k: usize) -> Job
    requires { (cells_at ≤ length s.now) × (k < most_jobs) }
    ensures { result ≡ job_at (word_in s.now) k }
{
    read_job(s, layout::JOBS_AT + layout::JOB_SIZE * k)
}

// The jobs with their count, which may be any number.
pub fn read_jobs(s: &[u32]) -> Jobs
    requires { cells_at ≤ length s.now }
    ensures { result ≡ held_jobs (word_in s.now) }
{
    Jobs {
        count: s[layout::COUNT_AT] as usize,
        jobs: array::from_fn(|k| job_at(s, k)),
    }
}

fn read_use(s: &[u32], at: usize) -> Use
    requires { at + use_size ≤ length s.now }
    ensures { result ≡ use_read (word_in s.now) at }
{
    Use {
        point: s[at],
        offset: s[at + layout::OFFSET_IN],
        length: s[at + layout::LENGTH_IN],
    }
}

// Use k of the line that begins at word `at`, in use or not.
pub fn use_at(s: &[u32], at: usize, k: usize) -> Use
    requires { (line_end at ≤ length s.now) × (k < most_uses) }
    ensures { result ≡ use_at (word_in s.now) at k }
{
    read_use(s, at + layout::USES_IN + layout::USE_SIZE * k)
}

// The cell in row i and column j of the gap table, as stored.
pub fn cell_at(s: &[u32], i: usize, j: usize) -> u32
    requires { (board_size ≤ length s.now) × (i < side) × (j < side) }
    ensures { result ≡ cell_at (word_in s.now) (i * side + j) }
{
    s[layout::CELLS_AT + (i * limits::SIDE + j)]
}

// ---- marks

// A job in use is marked sent or unsent, by 1 or 0. No one looks at the others. Joined by `|`, with no branch (`are_marked`).
fn is_marked(count: usize, k: usize, mark: u32) -> bool
    ensures { result ≡ is_marked count k mark }
{
    (count <= k) | (mark <= 1)
}

pub fn are_marked(s: &[u32]) -> bool
    requires { cells_at ≤ length s.now }
    ensures { result ≡ all_marked (word_in s.now) }
{
    let count = s[layout::COUNT_AT] as usize;
    let mut ok = true;
    // Stays: every call begins with this test, and the new form is no plainer for it: `all` would leave at the first job that is not marked, by a
    // branch for each of 16 jobs, where this form reads all 16 marks and takes none.
    for k in 0..limits::MOST_JOBS {
        ok &= is_marked(
            count,
            k,
            s[layout::JOBS_AT + layout::JOB_SIZE * k + layout::SENT_IN],
        );
    }
    ok
}
