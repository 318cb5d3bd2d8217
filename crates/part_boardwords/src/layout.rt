// Where the words of a board stand, for the code: the numbers of specs/Layout. No other crate adds or multiplies them: what stands at a number is read
// by `job_at`, `use_at` and `cell_at` (reading), written by what is in writing and moving, and a line begins at its `line_start` (places).
use spec_plain::limits;

pub const HORIZON_AT: usize = 0;

pub const LEAD_AT: usize = HORIZON_AT + 1;

pub const CLOCK_AT: usize = LEAD_AT + 1;

pub const COUNT_AT: usize = CLOCK_AT + 1;

pub const HEAD_SIZE: usize = COUNT_AT + 1;

// A job: its points, its batch, its mark, its due time.
pub const BATCH_IN: usize = 1;

pub const SENT_IN: usize = BATCH_IN + 1;

pub const DUE_IN: usize = SENT_IN + 1;

pub const JOB_SIZE: usize = DUE_IN + 1;

// A use: its point, its offset, its length.
pub const OFFSET_IN: usize = 1;

pub const LENGTH_IN: usize = OFFSET_IN + 1;

pub const USE_SIZE: usize = LENGTH_IN + 1;

// A line: its count, its uses.
pub const USES_IN: usize = 1;

pub const LINE_SIZE: usize = USES_IN + USE_SIZE * limits::MOST_USES;

// Jobs, lines and cells.
pub const JOBS_AT: usize = HEAD_SIZE;

pub const LINES_AT: usize = JOBS_AT + JOB_SIZE * limits::MOST_JOBS;

pub const CELLS_AT: usize = LINES_AT + LINE_SIZE * limits::RESOURCES;

// The words of a board.
pub const BOARD_WORDS: usize = CELLS_AT + limits::CELLS;

// Its bytes: four for each word, the low byte first.
pub const BOARD_BYTES: usize = 4 * BOARD_WORDS;
