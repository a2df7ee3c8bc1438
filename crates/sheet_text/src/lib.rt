// The sheet as text.
#![tactic(auto)]

pub mod desk;
pub mod sheet;
mod text;
