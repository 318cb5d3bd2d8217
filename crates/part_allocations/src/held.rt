// An offer that was read, and its allocations. What was tested of them once is known wherever they are passed.
ghost use Rattle.std.specs.Prelude.{◌≡◌, ◌≤◌, length, take};
ghost use Rattle.spec_plain.specs.Limits.{most_steps};
ghost use Rattle.part_allocations.specs.ReadAllocations.{ReadAllocations};

use spec_plain::{Allocation, Step};

// Allocations of an offer, in offer order: no more than it may have, with their numbers in range.
#[derive(Clone, Copy)]
pub struct Allocations<'a> {
    pub list: &'a [Allocation],
    pub ghost read: { ReadAllocations list.now },
}

impl<'a> Allocations<'a> {
    // Those before allocation k.
    pub fn before(self, k: usize) -> Allocations<'a>
        requires { k ≤ length self.list.now }
        ensures { result.list.now ≡ take k self.entry.list.now }
    {
        Allocations {
            list: &self.list[..k],
        }
    }
}

// An offer: its batch and its due time (0 is none), its steps, no more than it may have, and its allocations.
#[derive(Clone, Copy)]
pub struct HeldOffer<'a> {
    pub batch: u32,
    pub due: u32,
    pub steps: &'a [Step],
    pub allocations: Allocations<'a>,
    pub ghost few: { length steps.now ≤ most_steps },
}
