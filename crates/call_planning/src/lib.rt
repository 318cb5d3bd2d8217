// Plans a job, on a board that is lent as its words: the offer is read, its rules are tried on the table, and its job is put behind the others.
// Nothing but the table is written before the last test, and that is put back where it fails. An accepted plan leaves the words of the board after it,
// and a refused one the words that came.
// It may use call_board (definitions and laws), the readers and the parts of the board.
#![tactic(auto)]

ghost use Rattle.std.specs.Prelude.{◌≡◌, true, length};
ghost use Rattle.base_rulings.specs.Order.{refusal_of};
ghost use Rattle.spec_plain.specs.Plain.{drafted};
ghost use Rattle.part_allocations.specs.Offers.{offer_in};
ghost use Rattle.spec_rulebook.specs.Reading.{reading_of};
ghost use Rattle.part_offered.specs.Sized.{SizedOffer};
ghost use Rattle.part_boardwords.specs.Layout.{horizon_at, board_size};
ghost use Rattle.part_boardwords.specs.Words.{word_in, board_in, lent_board};
ghost use Rattle.part_sound.specs.Sound.{sound};
ghost use Rattle.call_board.specs.Boards.{state_of};
ghost use Rattle.call_board.specs.Calls.{decided, heard, planned};
ghost use Rattle.call_board.specs.InWords.{words_after};

use base_rulings::{Cause, Ruling};
use part_allocations::HeldOffer;
use part_boardwords::{layout, settings_in};
use part_drafts::draft;
use part_jobwords::{add_job, points_in};
use part_linewords::{insert_all, tidy_lines};
use part_offered::{read_allocations, read_durations};
use part_settling::try_grown;
use part_sound::is_sound;
use read_offer::Offer;
use read_plant::Plant;
use spec_plain::{Allocation, Step, limits};

// What stands in a place for a step, and in one for an allocation, until they are read.
const NO_STEP: Step = Step {
    shortest: 0,
    longest: 0,
};

const NO_ALLOCATION: Allocation = Allocation {
    resource: 0,
    place: 0,
    step: 0,
    offset: 0,
    length: 0,
};

// An offer that was read, on a sound board: 14 to 17, or the words of the board with its job.
fn plan_job(w: &mut [u32], offer: HeldOffer) -> Result<(), Cause>
    requires w_len { length w.old ≡ board_size }
    requires w_value { (sound (board_in w.old) ≡ true) × SizedOffer (word_in w.old horizon_at) (offer_in offer) }
    ensures ruling { refusal_of result ≡
        (decided (board_in w.old) (drafted (state_of (board_in w.old)) (offer_in offer.entry))).ruling }
    ensures words { w.new ≡
        words_after w.old (decided (board_in w.old) (drafted (state_of (board_in w.old)) (offer_in offer.entry))) }
{
    let settings = settings_in(w);
    let n = points_in(w);
    let rules = draft(w, settings, n, offer)?;
    let more = offer.steps.len() + 1;
    if !try_grown(
        &mut w[layout::CELLS_AT..],
        n as usize + 1,
        more,
        settings.horizon,
        rules.as_slice(),
    ) {
        return Err(Cause::Plain(17));
    }
    add_job(w, more as u32, offer.batch, offer.due);
    tidy_lines(w);
    insert_all(w, n + 1, offer.allocations);
    Ok(())
}

// An offer on a sound board: 7 to 10, 23, 11 to 13, or what its job comes to.
fn plan_offer(w: &mut [u32], plant: Plant, bytes: &[u8]) -> Result<(), Cause>
    requires w_len { length w.old ≡ board_size }
    requires w_value { sound (board_in w.old) ≡ true }
    ensures ruling { refusal_of result ≡
        (heard (board_in w.old) (reading_of (state_of (board_in w.old)) plant.entry.bytes.now bytes.now)).ruling }
    ensures words { w.new ≡
        words_after w.old (heard (board_in w.old)
        (reading_of (state_of (board_in w.old)) plant.entry.bytes.now bytes.now)) }
{
    let offer = Offer::read(plant, bytes)?;
    offer.check_consistency()?;
    let due = offer.due();
    if w[layout::HORIZON_AT] < due {
        return Err(Cause::Plain(23));
    }
    offer.check_chain()?;
    let mut steps = [NO_STEP; limits::MOST_STEPS];
    let mut allocations = [NO_ALLOCATION; limits::MOST_ALLOCATIONS];
    let held = HeldOffer {
        batch: offer.batch(),
        due,
        steps: read_durations(offer, &mut steps),
        allocations: read_allocations(offer, &mut allocations),
    };
    plan_job(w, held)
}

// The first cause among refusals 1 to 4, 6, 7 to 10, 23 and 11 to 17, or the words of the board with the offer's job.
fn try_plan(w: &mut [u32], plant: &[u8], offer: &[u8]) -> Result<(), Cause>
    ensures ruling { refusal_of result ≡ (planned (lent_board w.old) plant.now offer.now).ruling }
    ensures words { w.new ≡ words_after w.old (planned (lent_board w.old) plant.now offer.now) }
{
    let plant = Plant::read(plant)?;
    if !is_sound(w) {
        return Err(Cause::Plain(6));
    }
    plan_offer(w, plant, offer)
}

// The same as a ruling.
pub fn plan(w: &mut [u32], plant: &[u8], offer: &[u8]) -> Ruling
    ensures ruling { result ≡ (planned (lent_board w.old) plant.now offer.now).ruling }
    ensures words { w.new ≡ words_after w.old (planned (lent_board w.old) plant.now offer.now) }
{
    Ruling::from(try_plan(w, plant, offer))
}
