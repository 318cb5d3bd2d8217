// Cells copied.
ghost use Rattle.std.specs.Prelude.{◌≡◌, ◌≤◌, length, get_or};
ghost use Rattle.base_lists.specs.Loops.{build};

use spec_plain::limits;

// Of a table of few points few rows are copied: the points that count as few, and as fewest, and the cells of so many rows.
pub const FEW_POINTS: usize = 16;

pub const FEWEST_POINTS: usize = 8;

pub const FEW_CELLS: usize = FEW_POINTS * limits::SIDE;

pub const FEWEST_CELLS: usize = FEWEST_POINTS * limits::SIDE;

// A copy of the first N cells. All N are written, so that the compiler leaves the zeros out and moves the cells at once; where only as many as are
// live were copied, it would not.
pub fn first_cells<const N: usize>(t: &[u32]) -> [u32; N]
    requires { N ≤ length t.now }
    ensures first { result ≡ build (λ k. get_or t.now k 0) N }
    ensures whole { length t.now ≡ N → result ≡ t.now }
{
    let mut cells = [0u32; N];
    cells.copy_from_slice(&t[..N]);
    cells
}
