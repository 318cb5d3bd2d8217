// Jobs and uses moved by one place where they lie.
ghost use Rattle.std.specs.Prelude.{◌≡◌, ◌+◌, ◌≤◌, ◌<◌, length};
ghost use Rattle.base_lists.specs.Loops.{rewritten};
ghost use Rattle.spec_plain.specs.Limits.{most_jobs, most_uses};
ghost use Rattle.part_boardwords.specs.Layout.{use_size, jobs_at, cells_at, job_start, line_end, use_start};
ghost use Rattle.part_boardwords.specs.Words.{down_by_job, up_by_use};

use crate::layout;

// Each of the first n jobs is the one behind it, as it came.
pub fn move_jobs_down(w: &mut [u32], n: usize)
    requires { (cells_at ≤ length w.old) × (n < most_jobs) }
    ensures { w.new ≡ rewritten (down_by_job w.old) w.old jobs_at (job_start n) }
{
    let end = layout::JOBS_AT + layout::JOB_SIZE * n;
    w.copy_within(
        layout::JOBS_AT + layout::JOB_SIZE..end + layout::JOB_SIZE,
        layout::JOBS_AT,
    );
}

// The uses of the line that begins at word `at`, from number `from` on and before `to`, move up by one place.
pub fn move_uses_up(w: &mut [u32], at: usize, from: usize, to: usize)
    requires { (line_end at ≤ length w.old) × (from ≤ to) × (to < most_uses) }
    ensures { w.new ≡ rewritten (up_by_use w.old) w.old (use_start at from + use_size) (use_start at to + use_size) }
{
    let first = at + layout::USES_IN + layout::USE_SIZE * from;
    let end = at + layout::USES_IN + layout::USE_SIZE * to;
    w.copy_within(first..end, first + layout::USE_SIZE);
}
