// Settings, jobs, uses and rules: what rule book and board are made of. The plain machine (specs/Plain) is definitions over these; its code is the
// crates part_lines, part_linewords, part_jobwords and part_drafts. It may use base_rulings alone: neither bytes nor a table.
#![tactic(auto)]

pub mod limits; // how much a board holds

// What a board is made with: its horizon H, the latest time of a point, and its lead D, how long after the clock a job starts at the earliest.
#[derive(Clone, Copy, Debug, PartialEq, Eq)]
pub struct Settings {
    pub horizon: u32,
    pub lead: u32,
}

// A job: how many points it has (one more than steps), its batch (0 is none), whether it was sent, and its due time, the latest time of its last
// point (0 is none).
// Stays: batch and due time are words of an offer and of a board, in which 0 means none; the definitions read and write them so (`job_read`, `job_words`,
// `due_rules`).
#[derive(Clone, Copy, Debug, PartialEq, Eq)]
pub struct Job {
    pub points: u32,
    pub batch: u32,
    pub sent: bool,
    pub due: u32,
}

// A use of a resource (document 01: an allocation in a line). It starts `offset` after its point, the start of its step, and
// ends `length` later.
#[derive(Clone, Copy, Debug, PartialEq, Eq)]
pub struct Use {
    pub point: u32,
    pub offset: u32,
    pub length: u32,
}

// A rule: the time of `early` plus `more` is at most the time of `late` plus `slack`. So the time of early minus the time of late is at
// most slack - more, with no negative number in it. Early is the side that is bounded from above; it need not come first.
#[derive(Clone, Copy, Debug, PartialEq, Eq)]
pub struct Rule {
    pub early: u32,
    pub more: u32,
    pub late: u32,
    pub slack: u32,
}

// A step of an offer: its shortest and its longest duration.
#[derive(Clone, Copy, Debug, PartialEq, Eq)]
pub struct Step {
    pub shortest: u32,
    pub longest: u32,
}

// An allocation of an offer: its resource, how many uses of the line stand before it (document 01: its place), the number of its step
// in the offer, its offset and its length.
#[derive(Clone, Copy, Debug, PartialEq, Eq)]
pub struct Allocation {
    pub resource: u32,
    pub place: u32,
    pub step: u32,
    pub offset: u32,
    pub length: u32,
}
