// How much a board holds and an offer brings, for the code: the numbers of specs/Limits.
pub const MOST_JOBS: usize = 16;

// Beside the origin.
pub const MOST_POINTS: usize = 64;

// Each has a line.
pub const RESOURCES: usize = 16;

// In a line.
pub const MOST_USES: usize = 32;

// Of an offer.
pub const MOST_STEPS: usize = 8;

// The allocations of a step, and of an offer.
pub const STEP_ALLOCATIONS: usize = 4;

pub const MOST_ALLOCATIONS: usize = STEP_ALLOCATIONS * MOST_STEPS;

// Rows and columns of the gap table: a point each, and the origin.
pub const SIDE: usize = MOST_POINTS + 1;

pub const CELLS: usize = SIDE * SIDE;
