// The use that an allocation makes.
ghost use Rattle.std.specs.Prelude.{◌≡◌, ◌≤◌};
ghost use Rattle.spec_plain.specs.Limits.{most_points, most_steps};
ghost use Rattle.spec_plain.specs.Plain.{used_from};

use spec_plain::{Allocation, Use};

// The use of an allocation, where p0 of its job is the point `first`.
pub fn used_from(first: u32, allocation: Allocation) -> Use
    requires { (first ≤ most_points) × (allocation.step ≤ most_steps) }
    ensures { result ≡ used_from first allocation }
{
    Use {
        point: first + allocation.step,
        offset: allocation.offset,
        length: allocation.length,
    }
}
