// What the jobs under way say to an offer: whether another job fits, and the rules that they make for its last point. Each job is read where it lies.
ghost use Rattle.std.specs.Prelude.{◌≡◌, ◌++◌, ℕ, ◌≤◌, length, option_to_list};
ghost use Rattle.spec_plain.specs.Limits.{most_points};
ghost use Rattle.spec_plain.specs.Plain.{State, total, full, tray_gap, after_newest, batch_rules, due_rules};
ghost use Rattle.part_lines.specs.ArrayLists.{jobs_of, rules_of, rules_from, end_rule};
ghost use Rattle.part_lines.specs.Asked.{Sized, Room};
ghost use Rattle.part_boardwords.specs.Layout.{cells_at};
ghost use Rattle.part_boardwords.specs.Words.{word_in, held_jobs};

use part_boardwords::{job_at, layout};
use part_lines::{Rules, due_rule, tray_gap};
use spec_plain::{Rule, Settings, limits};

// The words of a board whose jobs are within their limits.
#[derive(Clone, Copy)]
pub struct JobWords<'a> {
    pub w: &'a [u32],
    pub ghost long: { cells_at ≤ length w.now },
    pub ghost sized: { Sized (held_jobs (word_in w.now)) },
}

impl<'a> JobWords<'a> {
    // 14 "There are 16 jobs, or the points would pass 64", where n points are live beside the origin and m would come. The origin is
    // no job's point and isn't counted.
    pub fn is_full(self, n: u32, m: u32) -> bool
        requires { (n ≡ total (jobs_of (held_jobs (word_in self.w.now)))) × (m ≤ most_points) }
        ensures { (s : State) → s.jobs ≡ jobs_of (held_jobs (word_in self.entry.w.now)) → result ≡ full s m }
    {
        if (limits::MOST_JOBS as u32) <= self.w[layout::COUNT_AT] {
            return true;
        }
        (limits::MOST_POINTS as u32) < n + m
    }

    // The last point of the newest job of a batch, if there is one. The jobs are listed oldest first, so a later job's point goes before what was found.
    fn newest_end(self, batch: u32) -> Option<u32>
        ensures { (d last : ℕ) → end_rule d last result ≡ after_newest d batch last 1 (jobs_of (held_jobs (word_in self.entry.w.now))) }
    {
        let count = self.w[layout::COUNT_AT] as usize;
        let mut x = 1;
        let mut found = None;
        for k in 0..count {
            let job = job_at(self.w, k);
            x += job.points;
            if job.batch == batch {
                found = Some(x - 1);
            }
        }
        found
    }

    // The rule (e), if there is one: `last` comes at least d after the last point of the newest job of the batch.
    #[tactic(auto, unfolding(spec_plain::specs::Plain::batch_rules, part_lines::specs::ArrayLists::end_rule))]
    fn batch_rule(self, d: u32, batch: u32, last: u32) -> Option<Rule>
        ensures { option_to_list result ≡ batch_rules d batch last (jobs_of (held_jobs (word_in self.entry.w.now))) }
    {
        if batch == 0 {
            return None;
        }
        let end = self.newest_end(batch)?;
        Some(Rule {
            early: end,
            more: d,
            late: last,
            slack: 0,
        })
    }

    // The rules of a job's last point come behind the others: the rule (e), and that of its due time.
    pub fn add_last_rules(
        self,
        rules: &mut Rules,
        settings: Settings,
        batch: u32,
        due: u32,
        last: u32,
    )
        requires { Room 2 rules.old }
        ensures { rules.new ≡ rules_from (rules_of rules.old
            ++ (batch_rules (tray_gap settings) batch last (jobs_of (held_jobs (word_in self.entry.w.now))) ++ due_rules due last)) }
    {
        let by_batch = self.batch_rule(tray_gap(settings), batch, last);
        let by_due = due_rule(due, last);
        rules.extend(by_batch);
        rules.extend(by_due);
    }
}
