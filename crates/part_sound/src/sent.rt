// The jobs that were sent: they come first, and their points stand still.
ghost use Rattle.std.specs.Prelude.{◌≡◌, true, ◌+◌, ◌≤◌, length, eqb};
ghost use Rattle.spec_plain.specs.Limits.{most_jobs, side, cell_count};
ghost use Rattle.spec_stn.specs.Table.{bias};
ghost use Rattle.part_lines.specs.ArrayLists.{jobs_of};
ghost use Rattle.part_lines.specs.Asked.{Sized};
ghost use Rattle.part_boardwords.specs.Layout.{count_at, cells_at};
ghost use Rattle.part_boardwords.specs.Words.{word_in, held_jobs};
ghost use Rattle.part_sound.specs.Sound.{sent_from, stand_still, still_job, still_sent};

use part_boardwords::{job_at, layout};
use part_gaps::BIAS;
use spec_plain::{Job, limits};

// Each job but the first is unsent, or stands behind one that was sent. The two are joined by `|`, so that a job takes one branch.
pub fn is_sent_first(w: &[u32]) -> bool
    requires { (cells_at ≤ length w.now) × (word_in w.now count_at ≤ most_jobs) }
    ensures { result ≡ sent_from true (jobs_of (held_jobs (word_in w.now))) }
{
    let count = w[layout::COUNT_AT] as usize;
    (1..count).all(|k| job_at(w, k - 1).sent | !job_at(w, k).sent)
}

// The two are twice the bias together. They may be any numbers, also such whose sum is past a u32.
fn cancel(a: u32, b: u32) -> bool
    ensures { result ≡ eqb (a + b) (bias + bias) }
{
    a.checked_add(b) == Some(2 * BIAS)
}

fn stand_still(t: &[u32], x: usize, m: usize) -> bool
    requires { (length t.now ≡ cell_count) × (x + m ≤ side) }
    ensures { result ≡ stand_still t.now x m }
{
    (x..x + m).all(|i| cancel(t[i], t[i * limits::SIDE]))
}

fn is_job_still(t: &[u32], x: usize, job: Job) -> bool
    requires { (length t.now ≡ cell_count) × (x + job.points ≤ side) }
    ensures { result ≡ still_job t.now x job }
{
    !job.sent || stand_still(t, x, job.points as usize)
}

pub fn is_sent_still(w: &[u32], t: &[u32]) -> bool
    requires { (cells_at ≤ length w.now) × (length t.now ≡ cell_count) × Sized (held_jobs (word_in w.now)) }
    ensures { result ≡ still_sent t.now 1 (jobs_of (held_jobs (word_in w.now))) }
{
    let count = w[layout::COUNT_AT] as usize;
    let mut ok = true;
    let mut x = 1;
    for k in 0..count {
        let job = job_at(w, k);
        ok &= is_job_still(t, x, job);
        x += job.points as usize;
    }
    ok
}
