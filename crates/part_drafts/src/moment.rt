// The lines at the moment of an allocation: what they hold in the words of the board, with the offer's earlier allocations put in. The words are only
// read, for the offer may yet be refused.
ghost use Rattle.std.specs.Prelude.{◌≡◌, ◌≤◌, ◌<◌, length, get_or};
ghost use Rattle.spec_plain.specs.Limits.{most_points, resources};
ghost use Rattle.spec_plain.specs.Plain.{no_use};
ghost use Rattle.part_lines.specs.Asked.{Lined};
ghost use Rattle.part_lines.specs.Placing.{AllFit, AllFit-prop};
ghost use Rattle.part_boardwords.specs.Layout.{cells_at};
ghost use Rattle.part_boardwords.specs.Words.{word_in, lines_read, lines_in};

use part_allocations::{Allocations, used_from};
use part_boardwords::{line_start, use_at};
use spec_plain::{Settings, Use};

// The words of a board, its settings, the first point of the job that would come, and those of its allocations that are put in.
#[derive(Clone, Copy)]
pub struct Moment<'a> {
    pub w: &'a [u32],
    pub settings: Settings,
    pub first: u32,
    pub earlier: Allocations<'a>,
    pub ghost words: { cells_at ≤ length w.now },
    pub ghost lined: { Lined (lines_read (word_in w.now)) },
    pub ghost few: { first ≤ most_points },
    pub ghost fits: { AllFit first (lines_in w.now) earlier.list.now } by { AllFit-prop first (lines_in w.now) earlier.list.now },
}

impl<'a> Moment<'a> {
    ghost use Rattle.part_drafts.specs.Moment.{line_at};

    // How many uses the line of a resource holds.
    pub fn number_in(self, resource: u32) -> usize
        requires { resource < resources }
        ensures { result ≡ length (line_at self.entry resource) }
    {
        let held = self.w[line_start(resource as usize)] as usize;
        let more = self
            .earlier
            .list
            .iter()
            .filter(|a| a.resource == resource)
            .count();
        held + more
    }

    // The use at a place of the line. The allocations are looked through from the last one on: it is one of them, or where one went in before it, it
    // stood one place lower until then.
    pub fn use_in(self, resource: u32, place: usize) -> Use
        requires { (resource < resources) × (place < length (line_at self resource)) }
        ensures { result ≡ get_or (line_at self.entry resource) place no_use }
    {
        let mut at = place;
        for allocation in self.earlier.list.iter().rev() {
            if allocation.resource == resource {
                let there = allocation.place as usize;
                if there == at {
                    return used_from(self.first, *allocation);
                }
                if there < at {
                    at -= 1;
                }
            }
        }
        use_at(self.w, line_start(resource as usize), at)
    }
}
