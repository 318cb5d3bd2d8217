// The structs of jobs, lines and rules; rules collected, and a use that stays or goes, by value: the plain machine's code but for jobs
// and lines, which are changed in words (crates part_jobwords and part_linewords).
// It may use spec_plain and base_rulings; it knows neither bytes nor a table.
#![tactic(auto)]

ghost use Rattle.std.specs.Prelude.{◌≡◌};
ghost use Rattle.spec_plain.specs.Plain.{total};
ghost use Rattle.part_lines.specs.ArrayLists.{jobs_of};
ghost use Rattle.part_lines.specs.Asked.{Sized};

mod leaving; // what stays when points leave
mod rulelist; // the list of rules

pub use leaving::{goes, staying};
pub use rulelist::{
    MOST_RULES, Rules, due_rule, end_of, in_order, not_after, not_before, tray_gap,
};
use spec_plain::{Job, Use, limits};

// The jobs of a board, oldest first.
// Stays: words may give any number of jobs, also one past the array, as `held_jobs` says and the clause `jobs` of `Sound` tests; the kit's `ArrayVec`
// holds none past its room. No one struct stands for this and the next two: in the kit a generic struct has no array of a type parameter.
#[derive(Clone, Copy, Debug, PartialEq, Eq)]
pub struct Jobs {
    pub count: usize,
    pub jobs: [Job; limits::MOST_JOBS],
}

impl Jobs {
    // How many points are live beside the origin.
    pub fn points(&self) -> u32
        requires { Sized self.now }
        ensures { result ≡ total (jobs_of self.now) }
    {
        self.jobs[..self.count].iter().map(|job| job.points).sum()
    }
}

// The line of a resource: its uses in their order.
// Stays: no code holds it, but `line_read` and the clause `lines` of `Sound` are of it, and its number may be any, as that of `Jobs`.
#[derive(Clone, Copy, Debug, PartialEq, Eq)]
pub struct Line {
    pub count: usize,
    pub uses: [Use; limits::MOST_USES],
}
