// The jobs of a board where they lie, in its words (part_boardwords, specs/Layout), as many as the count says. They are read there, and changed there.
// It may use spec_plain, part_lines, base_lists and part_boardwords, and rules on nothing but whether another job fits.
#![tactic(auto)]

mod changing; // another clock, one job more, jobs sent, the oldest gone
mod reading; // how many points are live, and the rules of the clock
mod words; // the jobs within their limits: whether another fits, and the rules that they make for its last point

pub use changing::{add_job, drop_oldest, mark_sent, write_clock};
pub use reading::{points_in, start_rules};
pub use words::JobWords;
