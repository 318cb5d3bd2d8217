// An offer that was read, as it is drafted and planned: its numbers, its steps and its allocations, which are lent; and the use that each allocation
// makes.
// It may use spec_plain, part_lines and base_lists, and rules on nothing.
#![tactic(auto)]

mod held; // the offer and its allocations, within their limits
mod using; // the use of an allocation

pub use held::{Allocations, HeldOffer};
pub use using::used_from;
