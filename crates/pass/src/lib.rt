// What every run tells.
#![tactic(auto)]

pub mod answers;
