// The counts of each size, from tallies.
#![tactic(auto)]

pub mod tallies;
