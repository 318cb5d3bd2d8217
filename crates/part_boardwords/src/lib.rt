// A board's words: BOARD_WORDS of them, in the order of specs/Words. Words come from outside and may be any: whether the board is sound is for the
// board's calls to say.
// It may use base_lists and the structs of jobs and lines (spec_plain, part_lines), and rules on nothing.
#![tactic(auto)]

pub mod layout; // where each word stands
mod making; // a job before it stands in words
mod moving; // jobs and uses moved by one place
mod places; // where a line begins
mod reading; // settings, jobs, uses and cells from their words
mod writing; // jobs and uses as their words; places not in use cleared

pub use layout::{BOARD_BYTES, BOARD_WORDS};
pub use making::new_job;
pub use moving::{move_jobs_down, move_uses_up};
pub use places::line_start;
pub use reading::{are_marked, cell_at, job_at, read_jobs, settings_in, use_at};
pub use writing::{clear, clear_jobs, clear_uses, write_job, write_sent, write_use};
