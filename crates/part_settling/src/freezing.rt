// Points set equal to their earliest times.
ghost use Rattle.std.specs.Prelude.{◌≡◌, cond, [], ◌∷◌, suc, ◌+◌, ◌≤◌, ◌<◌, length};
ghost use Rattle.spec_plain.specs.Limits.{side, cell_count};
ghost use Rattle.spec_plain.specs.Plain.{total, range, unsent_points};
ghost use Rattle.spec_stn.specs.Table.{Closed};
ghost use Rattle.part_gaps.specs.Cells.{table_of};
ghost use Rattle.part_settling.specs.Frozen.{frozen};

use crate::add_new;
use part_gaps::earliest;
use part_lines::not_after;
use spec_plain::Job;

// Point x set to its earliest time. That it is no earlier the table says already, so only the other rule is added.
fn freeze_point(t: &mut [u32], n: usize, x: u32)
    requires { (length t.old ≡ cell_count) × (n ≤ side) × (x < n) × Closed n (table_of t.old) }
    ensures { t.new ≡ frozen n (x ∷ []) t.old }
{
    let time = earliest(t, x as usize);
    add_new(t, n, not_after(x, time));
}

// The m points from x on.
fn freeze_points(t: &mut [u32], n: usize, x: u32, m: u32)
    requires { (length t.old ≡ cell_count) × (n ≤ side) × (x + m ≤ n) × Closed n (table_of t.old) }
    ensures { t.new ≡ frozen n (range x m) t.old }
{
    for point in x..x + m {
        freeze_point(t, n, point);
    }
}

// The points of a job that is not sent yet, from x on.
fn freeze_job(t: &mut [u32], n: usize, x: u32, job: Job)
    requires { (length t.old ≡ cell_count) × (n ≤ side) × (x + job.points ≤ n) × Closed n (table_of t.old) }
    ensures { t.new ≡ frozen n (cond job.sent [] (range x job.points)) t.old }
{
    if !job.sent {
        freeze_points(t, n, x, job.points);
    }
}

// The points of the unsent ones among the first `count` jobs.
pub fn freeze(t: &mut [u32], n: usize, jobs: &[Job], count: usize)
    requires t_len { (length t.old ≡ cell_count) × (n ≤ side) × Closed n (table_of t.old) }
    requires sized { (n ≡ suc (total jobs.now)) × (count ≤ length jobs.now) }
    ensures { t.new ≡ frozen n (unsent_points 1 count jobs.now) t.old }
{
    let mut x = 1;
    for job in &jobs[..count] {
        freeze_job(t, n, x, *job);
        x += job.points;
    }
}
