// The six counts of a host that keeps one card: what each outcome is to it.
ghost use Rattle.std.specs.Prelude.{◌≡◌};
ghost use Rattle.card.specs.Counts.{is_hit, slot_of, counting_of, counts_after};
ghost use Rattle.card.specs.Outcomes.{outcome_number};
ghost use Rattle.card.specs.Answers.{counted_answer};

use crate::outcome::Outcome;
use terms::Refusal;

// How many outcomes there are, each with a count.
const OUTCOMES: usize = 6;

// Whether a number is that of a hit; a number that is no outcome's is none. This and `add_outcome` take a number, as they always did: an outcome would ask more
// of a caller.
#[tactic(auto, using(crate::proofs::counting::Cases::hit_past))]
pub fn is_hit(outcome: u32) -> bool
    ensures { result ≡ is_hit outcome }
{
    Outcome::try_from(outcome).is_ok_and(Outcome::is_hit)
}

// The slot of an outcome in the counts.
#[tactic(auto, unfolding(crate::specs::Counts::slot_of))]
fn slot_of(outcome: Outcome) -> usize
    ensures { result ≡ slot_of (outcome_number outcome) }
{
    outcome as usize
}

// Adds an outcome to the counts, and answers how many were added: none where the number is no outcome, or its count is full. What lies past the six is kept.
#[tactic(auto, using(crate::proofs::counting::Cases::slots), unfolding(crate::specs::Counts::counting_of, crate::specs::Counts::counts_after))]
pub fn add_outcome(outcome: u32, counts: &mut [u64]) -> Result<u64, Refusal>
    ensures { (counted_answer result ≡ counting_of outcome counts.old) × (counts.new ≡ counts_after outcome counts.old) }
{
    if counts.len() < OUTCOMES {
        return Err(Refusal::Room);
    }
    let Ok(outcome) = Outcome::try_from(outcome) else {
        return Ok(0);
    };
    let slot = slot_of(outcome);
    let Some(count) = counts[slot].checked_add(1) else {
        return Ok(0);
    };
    counts[slot] = count;
    Ok(1)
}
