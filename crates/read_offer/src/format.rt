// An offer in right format, one that passed 7 to 9 for a good plant; and the rest of the fact check of it.

ghost use Rattle.std.specs.Prelude.{◌≡◌, ◌+◌, ◌*◌, ◌≤◌, ◌<◌, length, take, IfOk};
ghost use Rattle.base_rulings.specs.declared.Ruling.TheVariants.{Accepted};
ghost use Rattle.base_rulings.specs.Order.{refusal_of, passed_as};
ghost use Rattle.read_offer.specs.Offer.{header_size, batch_of, step_count, due_of};
ghost use Rattle.read_offer.specs.Offer.{offer_ruling, chain_of, consistency_ruling, chain_ruling};

use crate::{
    HEADER_SIZE, NO_ACTION, check_consistency, literals_at, read_goal, read_known, read_steps,
    work_back,
};
use base_rulings::Cause;
use base_words::u32_at;
use read_facts::{Action, at_start};
use read_plant::Plant;

#[derive(Clone, Copy)]
pub struct Offer<'a> {
    pub plant: Plant<'a>,
    pub bytes: &'a [u8],
    pub ghost ruled: { offer_ruling plant.bytes.now bytes.now ≡ Accepted },
    pub ghost long: { header_size ≤ length bytes.now },
    pub ghost counted: { (1 ≤ step_count bytes.now) × (step_count bytes.now ≤ 8) },
}

impl<'a> Offer<'a> {
    // The first of refusals 7 to 9, or an offer in right format of these bytes.
    pub fn read(plant: Plant<'a>, bytes: &'a [u8]) -> Result<Offer<'a>, Cause>
        ensures ruling { refusal_of result ≡ offer_ruling plant.entry.bytes.now bytes.now }
        ensures same { IfOk result (λ o. (o.plant.bytes.now ≡ plant.entry.bytes.now) × (o.bytes.now ≡ bytes.now)) }
    {
        if bytes.len() < HEADER_SIZE {
            return Err(Cause::Plain(7));
        }
        let count = u32_at(bytes, 20);
        let many = 8 < count;
        if count < 1 || many {
            return Err(Cause::Plain(7));
        }
        read_steps(plant, bytes, count)?;
        Ok(Offer { plant, bytes })
    }

    // The number of the batch that the sheet is of; 0 is none.
    pub fn batch(self) -> u32
        ensures { result ≡ batch_of self.entry.bytes.now }
    {
        u32_at(self.bytes, 0)
    }

    // When the sheet must lie in its tray at the latest; 0 is none.
    pub fn due(self) -> u32
        ensures { result ≡ due_of self.entry.bytes.now }
    {
        u32_at(self.bytes, 24)
    }

    // How many steps there are, 1 to 8.
    pub fn step_count(self) -> usize
        ensures { (result ≡ step_count self.entry.bytes.now) × (1 ≤ result) × (result ≤ 8) }
    {
        u32_at(self.bytes, 20) as usize
    }

    // 10: whether the facts known, and the facts wanted, are consistent.
    pub fn check_consistency(self) -> Result<(), Cause>
        ensures { result ≡ passed_as (consistency_ruling self.entry.bytes.now) }
    {
        check_consistency(self.bytes)
    }

    // The actions of the steps, in their order; what stands behind them is none. Each step's record is found once.
    // Stays: a rule of the project (no heap, fixed memory): an array of the most steps there are, of which the first `step_count` count.
    fn read_actions(self) -> [Action; 8]
        ensures { take (step_count self.entry.bytes.now) result ≡ chain_of self.entry.plant.bytes.now self.entry.bytes.now }
    {
        let plant = self.plant.bytes;
        let mut actions = [NO_ACTION; 8];
        let mut at = HEADER_SIZE;
        for step in 0..self.step_count() {
            let start = self.plant.start_of(u32_at(self.bytes, at));
            actions[step] = Action {
                needs: literals_at(plant, start),
                makes: literals_at(plant, start + 8),
            };
            at += 4 + 4 * (plant[start + 24] as usize);
        }
        actions
    }

    // The first of refusals 11 to 13; 10 is tested before.
    pub fn check_chain(self) -> Result<(), Cause>
        ensures { result ≡ passed_as (chain_ruling self.entry.plant.bytes.now self.entry.bytes.now) }
    {
        let actions = self.read_actions();
        let need = work_back(&actions[..self.step_count()], read_goal(self.bytes))?;
        at_start(read_known(self.bytes), need)
    }
}
