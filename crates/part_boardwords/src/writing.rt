// Jobs and uses written by their number, by the definition in specs/Codec; places not in use cleared.
ghost use Rattle.std.specs.Prelude.{◌≡◌, [], ◌∷◌, ◌+◌, ◌≤◌, ◌<◌, length, set};
ghost use Rattle.base_lists.specs.Loops.{rewritten};
ghost use Rattle.spec_plain.specs.Limits.{most_jobs, most_uses};
ghost use Rattle.part_boardwords.specs.Layout.{lines_at, cells_at, job_start, mark_at, line_end, use_start};
ghost use Rattle.part_boardwords.specs.Codec.{mark_of, job_words, use_words, overwritten};

use crate::layout;
use spec_plain::{Job, Use};

// 0 in the words from `from` on and before `to`.
pub fn clear(w: &mut [u32], from: usize, to: usize)
    requires { (from ≤ to) × (to ≤ length w.old) }
    ensures { w.new ≡ rewritten (λ k. 0) w.old from to }
{
    w[from..to].fill(0);
}

// ---- jobs

// Job k.
pub fn write_job(w: &mut [u32], k: usize, job: Job)
    requires { (cells_at ≤ length w.old) × (k < most_jobs) }
    ensures { w.new ≡ overwritten w.old (job_start k) (job_words job) }
{
    let at = layout::JOBS_AT + layout::JOB_SIZE * k;
    w[at..at + layout::JOB_SIZE].copy_from_slice(&[
        job.points,
        job.batch,
        u32::from(job.sent),
        job.due,
    ]);
}

// Job k marked as sent.
pub fn write_sent(w: &mut [u32], k: usize)
    requires { (cells_at ≤ length w.old) × (k < most_jobs) }
    ensures { w.new ≡ set w.old (mark_at k) 1 }
{
    w[layout::JOBS_AT + layout::JOB_SIZE * k + layout::SENT_IN] = 1;
}

// 0 in the places of the jobs from number n on.
pub fn clear_jobs(w: &mut [u32], n: usize)
    requires { (cells_at ≤ length w.old) × (n ≤ most_jobs) }
    ensures { w.new ≡ rewritten (λ k. 0) w.old (job_start n) lines_at }
{
    let end = layout::JOBS_AT + layout::JOB_SIZE * n;
    clear(w, end, layout::LINES_AT);
}

// ---- uses

// Use k of the line that begins at word `at`.
pub fn write_use(w: &mut [u32], at: usize, k: usize, u: Use)
    requires { (line_end at ≤ length w.old) × (k < most_uses) }
    ensures { w.new ≡ overwritten w.old (use_start at k) (use_words u) }
{
    let from = at + layout::USES_IN + layout::USE_SIZE * k;
    w[from..from + layout::USE_SIZE].copy_from_slice(&[u.point, u.offset, u.length]);
}

// 0 in the places of the uses from number n on of the line that begins at word `at`.
pub fn clear_uses(w: &mut [u32], at: usize, n: usize)
    requires { (line_end at ≤ length w.old) × (n ≤ most_uses) }
    ensures { w.new ≡ rewritten (λ k. 0) w.old (use_start at n) (line_end at) }
{
    clear(
        w,
        at + layout::USES_IN + layout::USE_SIZE * n,
        at + layout::LINE_SIZE,
    );
}
