// What the jobs under way say to a call: how many points are live, and the rules of the clock. Each job is read where it lies;
// a send alone reads them into a struct (`read_jobs`), which `freeze` takes (part_settling).
ghost use Rattle.std.specs.Prelude.{◌≡◌, [], ◌∷◌, cond, ◌≤◌, length, option_to_list};
ghost use Rattle.spec_plain.specs.Limits.{most_jobs};
ghost use Rattle.spec_plain.specs.Plain.{total, not_before, starts};
ghost use Rattle.part_lines.specs.ArrayLists.{jobs_of, rules_from};
ghost use Rattle.part_lines.specs.Asked.{Sized};
ghost use Rattle.base_lists.specs.All.{All};
ghost use Rattle.part_boardwords.specs.Layout.{count_at, cells_at};
ghost use Rattle.part_boardwords.specs.Words.{word_in, held_jobs};
ghost use Rattle.part_jobwords.specs.Counted.{FewPoints};

use part_boardwords::{job_at, layout};
use part_lines::{Rules, not_before};
use spec_plain::Rule;

// How many points are live beside the origin. Each job has at most 9 of them, so that no sum can wrap.
pub fn points_in(w: &[u32]) -> u32
    requires { (cells_at ≤ length w.now) × (word_in w.now count_at ≤ most_jobs) × All FewPoints (jobs_of (held_jobs (word_in w.now))) }
    ensures { result ≡ total (jobs_of (held_jobs (word_in w.now))) }
{
    let count = w[layout::COUNT_AT] as usize;
    (0..count).map(|k| job_at(w, k).points).sum()
}

// The rule of the clock for a job whose first point is x. A sent job has none.
fn start_rule(time: u32, x: u32, sent: bool) -> Option<Rule>
    ensures { option_to_list result ≡ cond sent [] (not_before x time ∷ []) }
{
    if sent {
        return None;
    }
    Some(not_before(x, time))
}

// The rules of the clock: each unsent job starts at `time` or later.
pub fn start_rules(w: &[u32], time: u32) -> Rules
    requires { (cells_at ≤ length w.now) × Sized (held_jobs (word_in w.now)) }
    ensures { result ≡ rules_from (starts time 1 (jobs_of (held_jobs (word_in w.now)))) }
{
    let count = w[layout::COUNT_AT] as usize;
    let mut rules = Rules::new();
    let mut x = 1;
    for k in 0..count {
        let job = job_at(w, k);
        rules.extend(start_rule(time, x, job.sent));
        x += job.points;
    }
    rules
}
