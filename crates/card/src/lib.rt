// Cards of one size: one read on a card, the step with its state, the counts of its outcomes, and the miss ratio.
#![tactic(auto)]

pub mod counting;
pub mod outcome;
pub mod places;
pub mod ratio;
mod state;
pub mod step;
