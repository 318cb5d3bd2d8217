// The fact check as the search calls it, from C (include/snipefeather.h). It may use read_offer and base_rulings alone, so that a search that only
// checks facts links nothing of the board.
#![tactic(auto)]

ghost use Rattle.std.specs.Prelude.{◌≡◌};
ghost use Rattle.base_rulings.specs.Answer.{number_of};
ghost use Rattle.read_offer.specs.Offer.{fact_check};

use read_offer::rule_facts;

// 0, or the number of the first of refusals 1 to 4 and 7 to 13.
#[unsafe(no_mangle)]
pub extern "C" fn sf_fact_check(plant: &[u8], offer: &[u8]) -> u32
    ensures { result ≡ number_of (fact_check plant.now offer.now) }
{
    rule_facts(plant, offer).number()
}
