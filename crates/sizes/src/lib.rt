// All sizes in one pass.
#![tactic(auto)]

pub mod run;
