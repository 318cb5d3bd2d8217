// The gap table: the cells of 65 x 65 points, (i, j) at 65 i + j. A cell of two live points holds the gap from i to j, the largest that the
// time of j minus the time of i can be, plus the bias; every other cell holds 0.
//
// Every function takes the table as a slice, of 4225 cells. What it requires beside that keeps sums within 32 bits.
// It may use spec_stn, base_lists and spec_plain; no board is known here.
#![tactic(auto)]

mod adding; // a rule added, and whether it agrees
mod copying; // cells copied
mod dropping; // points dropped
mod growing; // new points

ghost use Rattle.std.specs.Prelude.{◌≡◌, ◌<◌, length};
ghost use Rattle.spec_plain.specs.Limits.{side, cell_count};
ghost use Rattle.spec_stn.specs.Table.{earliest, latest};
ghost use Rattle.part_gaps.specs.Cells.{table_of};

pub use adding::{add, entails, is_consistent};
pub use copying::{FEW_CELLS, FEW_POINTS, FEWEST_CELLS, FEWEST_POINTS, first_cells};
pub use dropping::drop_points;
pub use growing::grow;
use spec_plain::limits;

// What is added to a gap where it is stored: the least gap is then 0.
pub const BIAS: u32 = 100_000_000;

// The earliest time of point x.
pub fn earliest(t: &[u32], x: usize) -> u32
    requires { (length t.now ≡ cell_count) × (x < side) }
    ensures { result ≡ earliest (table_of t.now) x }
{
    BIAS.saturating_sub(t[x * limits::SIDE])
}

// The latest time of point x.
pub fn latest(t: &[u32], x: usize) -> u32
    requires { (length t.now ≡ cell_count) × (x < side) }
    ensures { result ≡ latest (table_of t.now) x }
{
    t[x].saturating_sub(BIAS)
}
