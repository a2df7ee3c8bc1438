// Traces: numbers, headers and records, read and written.
#![tactic(auto)]

mod field;
pub mod header;
pub mod number;
pub mod record;
mod spelling;
