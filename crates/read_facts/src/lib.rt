// The fact check on a chain: what must hold is worked back from the goal to the start (regression). The definition that it is held to runs
// forward (specs/Forward). It may use base_masks and base_rulings, and knows nothing of bytes.
#![tactic(auto)]

ghost use Rattle.std.specs.Prelude.{◌≡◌};
ghost use Rattle.base_masks.specs.Mask.{share};
ghost use Rattle.base_rulings.specs.Order.{passed_as};
ghost use Rattle.read_facts.specs.Regression.{undoes, regressed, back_over, lacking, at_start};

use base_masks::{difference, first, overlap, union};
use base_rulings::Cause;

// Facts that are true (pos) and facts that are false (neg). Document 01 writes them as two masks: known-true and
// known-false, goal-true and goal-false, needs-true and needs-false, makes-true and makes-false.
#[derive(Clone, Copy, Debug, PartialEq, Eq)]
pub struct Literals {
    pub pos: u32,
    pub neg: u32,
}

impl Literals {
    // Whether a fact is both true and false.
    pub fn has_both(self) -> bool
        ensures { result ≡ share self.pos self.neg }
    {
        overlap(self.pos, self.neg)
    }
}

// What an action needs and what it makes.
#[derive(Clone, Copy, Debug, PartialEq, Eq)]
pub struct Action {
    pub needs: Literals,
    pub makes: Literals,
}

impl Action {
    // Whether it makes false a fact needed true after it, or true one needed false.
    fn undoes(self, after: Literals) -> bool
        ensures { result ≡ undoes self after }
    {
        overlap(after.pos, self.makes.neg) || overlap(after.neg, self.makes.pos)
    }

    // What must hold before it: what it makes as needed is struck, and its own needs are added.
    fn regress(self, after: Literals) -> Literals
        ensures { result ≡ regressed self after }
    {
        Literals {
            pos: union(difference(after.pos, self.makes.pos), self.needs.pos),
            neg: union(difference(after.neg, self.makes.neg), self.needs.neg),
        }
    }

    // One step back: 11, then 12, or what must hold before the step.
    pub fn back_over(self, step: u32, after: Literals) -> Result<Literals, Cause>
        ensures { result ≡ back_over self step after }
    {
        if self.undoes(after) {
            return Err(Cause::Step(11, step));
        }
        let need = self.regress(after);
        if need.has_both() {
            return Err(Cause::Step(12, step));
        }
        Ok(need)
    }
}

// The facts needed that are not known so. An unknown fact is neither known true nor known false.
fn find_lacking(known: Literals, need: Literals) -> u32
    ensures { result ≡ lacking known need }
{
    union(
        difference(need.pos, known.pos),
        difference(need.neg, known.neg),
    )
}

// At the start each needed fact must be known so: 13 with the lowest that is not.
pub fn at_start(known: Literals, need: Literals) -> Result<(), Cause>
    ensures { result ≡ passed_as (at_start known need) }
{
    let lack = find_lacking(known, need);
    if lack == 0 {
        return Ok(());
    }
    Err(Cause::Fact(13, first(lack)))
}
