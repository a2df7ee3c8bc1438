// One read at all sizes, on the areas of one card.
#![tactic(auto)]

pub mod lists;
pub mod reads;
mod renewals;
pub mod rows;
mod starts;
mod sweeps;
