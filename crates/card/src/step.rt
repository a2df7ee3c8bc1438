// The step for one size.
ghost use Rattle.std.specs.Prelude.{◌≡◌};
ghost use Rattle.card.specs.State.{step_of};
ghost use Rattle.card.specs.Answers.{told, stepped_answer};

use crate::outcome::Outcome;
use crate::places::{key_of, read};
use crate::state::is_state;
use terms::Refusal;
use terms::range::{LARGEST_SIZE, Range};

// A size, and the places from the top: those after the size are empty.
#[derive(Clone, Copy, Debug, PartialEq, Eq)]
pub struct Card {
    pub size: usize,
    pub places: [u64; LARGEST_SIZE],
}

// The outcome of a step or its refusal, and the card after it.
#[derive(Clone, Copy, Debug, PartialEq, Eq)]
pub struct Stepped {
    pub answer: Result<Outcome, Refusal>,
    pub card: Card,
}

// One read on a card, tested before anything moves.
#[tactic(auto, using(crate::proofs::step::Cases::tested), unfolding(crate::specs::State::step_of, terms::specs::Ranges::size))]
fn read_on(card: &mut Card, volume: u64, block: u32, priority: u64) -> Result<Outcome, Refusal>
    ensures { told result card.new ≡ step_of card.old.size card.old.places volume block priority }
{
    if !is_state(card) {
        return Err(Refusal::State);
    }
    Range::volume().check(volume)?;
    Range::priority().check(priority)?;
    let key = key_of(volume, block as u64);
    Ok(read(&mut card.places[..card.size], key, priority as usize))
}

pub fn step(mut card: Card, volume: u64, block: u32, priority: u64) -> Stepped
    ensures { stepped_answer result ≡ step_of card.size card.places volume block priority }
{
    let answer = read_on(&mut card, volume, block, priority);
    Stepped { answer, card }
}
