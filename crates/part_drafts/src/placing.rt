// The allocations of an offer placed, one after the other, with the rules (d) that each makes. No word is written.
ghost use Rattle.std.specs.Prelude.{◌≡◌, [], ◌∷◌, ℕ, ◌+◌, ◌≤◌, ◌*◌, length, option_to_list};
ghost use Rattle.spec_plain.specs.Limits.{most_points, most_allocations};
ghost use Rattle.spec_plain.specs.Plain.{used_from, rule_before, rule_after, placed};
ghost use Rattle.part_lines.specs.ArrayLists.{rules_of, answered};
ghost use Rattle.part_lines.specs.Asked.{Lined, Room, Readable};
ghost use Rattle.part_lines.specs.Placing.{all_with, lines_with};
ghost use Rattle.part_boardwords.specs.Layout.{cells_at};
ghost use Rattle.part_boardwords.specs.Words.{word_in, lines_read, lines_in};
ghost use Rattle.part_drafts.specs.Moment.{line_at, lines_at};

use crate::moment::Moment;
use base_rulings::Cause;
use part_allocations::{Allocations, used_from};
use part_lines::{Rules, in_order};
use spec_plain::{Allocation, Rule, Settings, limits};

// The rule with the use just before an allocation, if there is one.
fn rule_before(moment: Moment, allocation: Allocation) -> Option<Rule>
    requires { Readable allocation × (allocation.place ≤ length (line_at moment allocation.resource)) }
    ensures { option_to_list result ≡
        rule_before moment.entry.settings (line_at moment.entry allocation.resource) allocation.place (used_from moment.entry.first allocation) }
{
    let place = allocation.place as usize;
    if place == 0 {
        return None;
    }
    let before = moment.use_in(allocation.resource, place - 1);
    Some(in_order(moment.settings, before, used_from(moment.first, allocation)))
}

// The rule with the use just after it, if there is one; the line holds `number` uses.
fn rule_after(moment: Moment, allocation: Allocation, number: usize) -> Option<Rule>
    requires { Readable allocation × (number ≡ length (line_at moment allocation.resource)) }
    ensures { option_to_list result ≡
        rule_after moment.entry.settings (line_at moment.entry allocation.resource) allocation.place (used_from moment.entry.first allocation) }
{
    let place = allocation.place as usize;
    if number <= place {
        return None;
    }
    let after = moment.use_in(allocation.resource, place);
    Some(in_order(moment.settings, used_from(moment.first, allocation), after))
}

// One allocation placed, once those before it are put in: its rules come behind the others. 15 "A place exceeds the number in its line at that moment",
// and then 16 "The line has 32 already".
#[tactic(auto, using(crate::proofs::PlaceLaws::stops_far, crate::proofs::PlaceLaws::stops_full))]
fn place_one(moment: Moment, allocation: Allocation, rules: &mut Rules) -> Result<(), Cause>
    requires { Readable allocation × Room 2 rules.old }
    ensures answer { answered result (lines_with moment.entry.first (lines_at moment.entry) allocation) (rules_of rules.new)
        ≡ placed moment.entry.settings moment.entry.first (length moment.entry.earlier.list.now) (allocation ∷ []) (lines_at moment.entry) (rules_of rules.old) }
    ensures room { (n : ℕ) → Room (2 + n) rules.old → Room n rules.new }
{
    let k = moment.earlier.list.len() as u32;
    let number = moment.number_in(allocation.resource);
    if number < allocation.place as usize {
        return Err(Cause::Allocation(15, k));
    }
    if limits::MOST_USES <= number {
        return Err(Cause::Allocation(16, k));
    }
    let before = rule_before(moment, allocation);
    let after = rule_after(moment, allocation, number);
    rules.extend(before);
    rules.extend(after);
    Ok(())
}

// All allocations of an offer placed, or the first that is stopped and the rules as they are then. A place counts what stands in the line at
// that moment, the offer's earlier allocations with it.
pub fn place_all(
    w: &[u32],
    settings: Settings,
    first: u32,
    allocations: Allocations,
    rules: &mut Rules,
) -> Result<(), Cause>
    requires { (cells_at ≤ length w.now) × Lined (lines_read (word_in w.now)) × (first ≤ most_points) × Room (2 * most_allocations + 2) rules.old }
    ensures answer { answered result (all_with first (lines_in w.now) allocations.entry.list.now) (rules_of rules.new)
        ≡ placed settings first 0 allocations.entry.list.now (lines_in w.now) (rules_of rules.old) }
    ensures room { Room 2 rules.new }
{
    for (k, allocation) in allocations.list.iter().enumerate() {
        let moment = Moment {
            w,
            settings,
            first,
            earlier: allocations.before(k),
        };
        place_one(moment, *allocation, rules)?;
    }
    Ok(())
}
