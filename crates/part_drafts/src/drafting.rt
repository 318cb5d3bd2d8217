// What an offer comes to before timetables are looked at: a refusal, or the rules (b) to (e) and of its due time.
ghost use Rattle.std.specs.Prelude.{◌≡◌, ◌∷◌, ◌≤◌, length};
ghost use Rattle.spec_plain.specs.Limits.{most_points, most_steps};
ghost use Rattle.spec_plain.specs.Plain.{with_settings, total, not_before, durations, drafted};
ghost use Rattle.part_lines.specs.ArrayLists.{jobs_of, rules_from};
ghost use Rattle.part_allocations.specs.Offers.{offer_in};
ghost use Rattle.part_lines.specs.Asked.{Sized, Lined};
ghost use Rattle.part_boardwords.specs.Layout.{clock_at, cells_at};
ghost use Rattle.part_boardwords.specs.Board.{state_of};
ghost use Rattle.part_boardwords.specs.Words.{word_in, held_jobs, lines_read, board_in};
ghost use Rattle.part_drafts.specs.DraftedAs.{DraftedAs};

use crate::placing::place_all;
use base_rulings::Cause;
use part_allocations::HeldOffer;
use part_boardwords::layout;
use part_jobwords::JobWords;
use part_lines::{Rules, not_before};
use spec_plain::{Settings, Step};

// The rules (b) and (c): the first point is at `earliest` or later, and each step lasts as long as it may.
fn begin_rules(first: u32, earliest: u32, steps: &[Step]) -> Rules
    requires { (first ≤ most_points) × (length steps.now ≤ most_steps) }
    ensures { result ≡ rules_from (not_before first earliest ∷ durations first steps.now) }
{
    let mut rules = Rules::new();
    rules.push(not_before(first, earliest));
    rules.add_durations(first, steps);
    rules
}

// What an offer that was read comes to, on a board of n points beside the origin: 14, 15 or 16, or the rules (b) to (e) and of
// its due time in this order.
pub fn draft(w: &[u32], settings: Settings, n: u32, offer: HeldOffer) -> Result<Rules, Cause>
    requires cells_at_in_bounds { cells_at ≤ length w.now }
    requires sized { Sized (held_jobs (word_in w.now)) × (n ≡ total (jobs_of (held_jobs (word_in w.now))))
        × (word_in w.now clock_at ≤ 100000000) × (settings.lead ≤ 1000000) }
    requires lined { Lined (lines_read (word_in w.now)) }
    ensures { DraftedAs result (drafted (with_settings (state_of (board_in w.now)) settings) (offer_in offer.entry)) }
{
    let count = offer.steps.len() as u32;
    let jobs = JobWords { w };
    if jobs.is_full(n, count + 1) {
        return Err(Cause::Plain(14));
    }
    let first = n + 1;
    let mut rules = begin_rules(first, w[layout::CLOCK_AT] + settings.lead, offer.steps);
    place_all(w, settings, first, offer.allocations, &mut rules)?;
    jobs.add_last_rules(&mut rules, settings, offer.batch, offer.due, first + count);
    Ok(rules)
}
