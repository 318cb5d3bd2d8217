// The offer as the plain machine takes it: the durations of its steps, and its allocations with their places, copied out of the bytes of
// a good plant file and a good offer. It rules on nothing. It may use the readers (base_words, base_rulings, read_plant, read_offer), spec_plain,
// the rule book's definition of what an offer says, an offer that is held (part_allocations), part_lines and base_lists.
#![tactic(auto)]

mod step; // a step, with the places of its bytes

ghost use Rattle.std.specs.Prelude.{◌≡◌, ◌++◌, ◌+◌, ◌≤◌, take, length};
ghost use Rattle.spec_plain.specs.Limits.{most_allocations};
ghost use Rattle.read_plant.specs.Plant.{allocation_count};
ghost use Rattle.spec_rulebook.specs.Reading.{allocations_of_step, offer_of};

use part_allocations::Allocations;
use read_offer::{HEADER_SIZE, Offer};
use spec_plain::{Allocation, Step, limits};
use step::OfferedStep;

// The steps of the offer, put into an array that holds as many as an offer may have.
pub fn read_durations<'a>(offer: Offer, held: &'a mut [Step; limits::MOST_STEPS]) -> &'a [Step]
    ensures { result.now ≡ (offer_of offer.entry.plant.bytes.now offer.entry.bytes.now).steps }
{
    let count = offer.step_count();
    let mut at = HEADER_SIZE;
    for (k, slot) in held[..count].iter_mut().enumerate() {
        let step = OfferedStep::new(offer, k as u32, at);
        *slot = step.durations();
        at = step.end();
    }
    &held[..count]
}

// The allocations of a step, put behind the first `many`; how many they are.
fn push_step(step: OfferedStep, held: &mut [Allocation], many: usize) -> usize
    requires { many + allocation_count step.offer.plant.bytes.now step.start ≤ length held.old }
    ensures number { result ≡ allocation_count step.entry.offer.plant.bytes.now step.entry.start }
    ensures behind { take (many + result) held.new ≡
        take many held.old ++ allocations_of_step step.entry.offer.plant.bytes.now step.entry.offer.bytes.now step.entry.number 0 result }
{
    let n = step.allocation_count();
    for (j, slot) in held[many..many + n].iter_mut().enumerate() {
        *slot = step.allocation(j);
    }
    n
}

// The allocations of the offer, step by step, put into a slice that holds as many as an offer may have.
pub fn read_allocations<'a>(offer: Offer, held: &'a mut [Allocation]) -> Allocations<'a>
    requires { most_allocations ≤ length held.old }
    ensures { result.list.now ≡ (offer_of offer.entry.plant.bytes.now offer.entry.bytes.now).allocations }
{
    let mut many = 0;
    let mut at = HEADER_SIZE;
    for k in 0..offer.step_count() {
        let step = OfferedStep::new(offer, k as u32, at);
        let n = push_step(step, held, many);
        many += n;
        at = step.end();
    }
    Allocations {
        list: &held[..many],
    }
}
