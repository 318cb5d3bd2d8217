// The board's numbers and its jobs. They are tested first, so that whatever is walked and added later is small.
ghost use Rattle.std.specs.Prelude.{◌≡◌, true, ◌≤◌, length};
ghost use Rattle.spec_plain.specs.Limits.{most_jobs};
ghost use Rattle.part_lines.specs.ArrayLists.{jobs_of};
ghost use Rattle.part_boardwords.specs.Layout.{count_at, cells_at};
ghost use Rattle.part_boardwords.specs.Words.{word_in, held_jobs};
ghost use Rattle.part_sound.specs.Sound.{all_of, sized_settings, sized_numbers, sized_job};

use part_boardwords::{job_at, layout};
use spec_plain::{Job, Settings};

// Horizon and lead, of a board and of one to come.
pub fn are_settings_sized(s: Settings) -> bool
    ensures { result ≡ sized_settings s }
{
    (1..=100_000_000).contains(&s.horizon) && s.lead <= 1_000_000
}

pub fn are_numbers_sized(s: Settings, clock: u32) -> bool
    ensures { result ≡ sized_numbers s clock }
{
    are_settings_sized(s) && clock <= s.horizon
}

// Joined by `&`, so that a job takes one branch, in `is_each_sized`.
fn is_job_sized(job: Job, horizon: u32) -> bool
    ensures { result ≡ sized_job horizon job }
{
    (2..=9).contains(&job.points) & (job.due <= horizon)
}

// The jobs in use, each read where it lies.
pub fn is_each_sized(w: &[u32], horizon: u32) -> bool
    requires { (cells_at ≤ length w.now) × (word_in w.now count_at ≤ most_jobs) }
    ensures { result ≡ all_of (sized_job horizon) (jobs_of (held_jobs (word_in w.now))) }
{
    let count = w[layout::COUNT_AT] as usize;
    (0..count).all(|k| is_job_sized(job_at(w, k), horizon))
}
