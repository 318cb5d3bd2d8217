// A step of an offer, with the places of its bytes and of its action's record.
ghost use Rattle.std.specs.Prelude.{◌≡◌, ◌+◌, ◌<◌};
ghost use Rattle.read_plant.specs.Plant.{allocation_count};
ghost use Rattle.read_offer.specs.Offer.{step_count, step_start};
ghost use Rattle.spec_rulebook.specs.Reading.{step_of, allocation_of};
ghost use Rattle.part_offered.specs.Offered.{Offered};

use base_words::u32_at;
use read_offer::Offer;
use spec_plain::{Allocation, Step};

// Step `number`: its bytes start at `at` in the offer, its action's record at `start` in the plant file.
#[derive(Clone, Copy)]
pub struct OfferedStep<'a> {
    offer: Offer<'a>,
    number: u32,
    at: usize,
    start: usize,
    pub ghost offered: { Offered offer.plant.bytes.now offer.bytes.now number at start },
}

impl<'a> OfferedStep<'a> {
    // The step whose bytes start at `at`.
    pub fn new(offer: Offer<'a>, number: u32, at: usize) -> OfferedStep<'a>
        requires { (number < step_count offer.bytes.now) × (at ≡ step_start offer.plant.bytes.now offer.bytes.now number) }
        ensures plant { result.offer.plant.bytes.now ≡ offer.entry.plant.bytes.now }
        ensures offer { result.offer.bytes.now ≡ offer.entry.bytes.now }
        ensures number { result.number ≡ number }
    {
        let start = offer.plant.start_of(u32_at(offer.bytes, at));
        OfferedStep {
            offer,
            number,
            at,
            start,
        }
    }

    // How long it lasts.
    pub fn durations(self) -> Step
        ensures { result ≡ step_of self.entry.offer.plant.bytes.now self.entry.offer.bytes.now self.entry.number }
    {
        Step {
            shortest: u32_at(self.offer.plant.bytes, self.start + 16),
            longest: u32_at(self.offer.plant.bytes, self.start + 20),
        }
    }

    // How many allocations it has.
    pub fn allocation_count(self) -> usize
        ensures { result ≡ allocation_count self.entry.offer.plant.bytes.now self.entry.start }
    {
        self.offer.plant.bytes[self.start + 24] as usize
    }

    // Allocation j of them.
    pub fn allocation(self, j: usize) -> Allocation
        requires { j < allocation_count self.offer.plant.bytes.now self.start }
        ensures { result ≡ allocation_of self.entry.offer.plant.bytes.now self.entry.offer.bytes.now self.entry.number j }
    {
        let from = self.start + 28 + 12 * j;
        let resource = u32_at(self.offer.plant.bytes, from);
        let offset = u32_at(self.offer.plant.bytes, from + 4);
        let length = u32_at(self.offer.plant.bytes, from + 8);
        let place = u32_at(self.offer.bytes, self.at + 4 + 4 * j);
        Allocation {
            resource,
            place,
            step: self.number,
            offset,
            length,
        }
    }

    // Where the next step's bytes start.
    pub fn end(self) -> usize
        ensures { result ≡ step_start self.entry.offer.plant.bytes.now self.entry.offer.bytes.now (self.entry.number + 1) }
    {
        self.at + 4 + 4 * self.allocation_count()
    }
}
