// The offer: refusals 7 to 10, and the fact check of the chain that it names. The bytes may be any.
// It may use base_words, base_rulings, read_plant and read_facts; it knows of no board.
#![tactic(auto)]

mod format;

ghost use Rattle.std.specs.Prelude.{◌≡◌, ◌+◌, ◌≤◌, length};
ghost use Rattle.base_rulings.specs.Order.{refusal_of, passed_as};
ghost use Rattle.base_words.specs.Word.{word};
ghost use Rattle.read_facts.specs.Regression.{work_back};
ghost use Rattle.read_offer.specs.Offer.{header_size, known_of, goal_of, step_count, step_at, offer_ruling, consistency_ruling, fact_check};

use base_rulings::{Cause, Ruling};
use base_words::u32_at;
pub use format::Offer;
use read_facts::{Action, Literals};
use read_plant::Plant;

// The bytes of an offer before its steps.
pub const HEADER_SIZE: usize = 28;

// What stands where there is no step.
const NO_ACTION: Action = Action {
    needs: Literals { pos: 0, neg: 0 },
    makes: Literals { pos: 0, neg: 0 },
};

// Two masks, one after the other: the facts that are true, and those that are false.
fn literals_at(s: &[u8], at: usize) -> Literals
    requires { at + 8 ≤ length s.now }
    ensures { result ≡ record { pos = word s.now at; neg = word s.now (at + 4) } }
{
    Literals {
        pos: u32_at(s, at),
        neg: u32_at(s, at + 4),
    }
}

// The facts known of the sheet.
fn read_known(offer: &[u8]) -> Literals
    requires { header_size ≤ length offer.now }
    ensures { result ≡ known_of offer.now }
{
    literals_at(offer, 4)
}

// The facts wanted of it at the end.
fn read_goal(offer: &[u8]) -> Literals
    requires { header_size ≤ length offer.now }
    ensures { result ≡ goal_of offer.now }
{
    literals_at(offer, 12)
}

// 10: whether the facts known, and the facts wanted, are consistent.
// Stays: what may not change: it was public before `Offer` had a method of this name, and asks for the header alone.
pub fn check_consistency(offer: &[u8]) -> Result<(), Cause>
    requires { header_size ≤ length offer.now }
    ensures { result ≡ passed_as (consistency_ruling offer.now) }
{
    if read_known(offer).has_both() || read_goal(offer).has_both() {
        return Err(Cause::Plain(10));
    }
    Ok(())
}

// Reads the step that starts at `at`: 8, or where it ends.
fn read_step(plant: Plant<'_>, offer: &[u8], step: u32, at: usize) -> Result<usize, Cause>
    requires { at ≤ length offer.now }
    ensures { result ≡ step_at plant.entry.bytes.now offer.now step at }
{
    if offer.len() - at < 4 {
        return Err(Cause::Step(8, step));
    }
    let action = u32_at(offer, at);
    if plant.trailer.count <= action {
        return Err(Cause::Step(8, step));
    }
    let n = plant.allocation_count(action);
    if offer.len() - at < 4 + 4 * n {
        return Err(Cause::Step(8, step));
    }
    Ok(at + 4 + 4 * n)
}

// Reads the steps one after the other. The first that fails ends the reading; then 9.
fn read_steps(plant: Plant<'_>, offer: &[u8], count: u32) -> Result<(), Cause>
    requires { (header_size ≤ length offer.now) × (count ≡ step_count offer.now) × (1 ≤ count) × (count ≤ 8) }
    ensures { refusal_of result ≡ offer_ruling plant.entry.bytes.now offer.now }
{
    let mut at = HEADER_SIZE;
    for step in 0..count {
        let answer = read_step(plant, offer, step, at);
        // Stays: document 01 names the form: `let .. else` takes each step's answer apart and leaves with its cause.
        let Ok(end) = answer else {
            return answer.map(|_| ());
        };
        at = end;
    }
    if at != offer.len() {
        return Err(Cause::Plain(9));
    }
    Ok(())
}

// What must hold before the chain, where `after` must hold behind it. Its last step comes first.
fn work_back(chain: &[Action], after: Literals) -> Result<Literals, Cause>
    requires { length chain.now ≤ 8 }
    ensures { result ≡ work_back chain.now 0 after }
{
    let Some((last, before)) = chain.split_last() else {
        return Ok(after);
    };
    let need = last.back_over(before.len() as u32, after)?;
    work_back(before, need)
}

// The fact check: the first of refusals 1 to 4 and 7 to 13.
fn check_facts(plant: &[u8], offer: &[u8]) -> Result<(), Cause>
    ensures { result ≡ passed_as (fact_check plant.now offer.now) }
{
    let plant = Plant::read(plant)?;
    let offer = Offer::read(plant, offer)?;
    offer.check_consistency()?;
    offer.check_chain()
}

// The same as a ruling.
pub fn rule_facts(plant: &[u8], offer: &[u8]) -> Ruling
    ensures { result ≡ fact_check plant.now offer.now }
{
    let answer = check_facts(plant, offer);
    // Stays: the form that document 01 names for a record's answer; `Ruling::from(answer)` alone says the same.
    let Ok(()) = answer else {
        return Ruling::from(answer);
    };
    Ruling::Accepted
}
