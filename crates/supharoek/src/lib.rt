// The library for other languages: calls on plain numbers and slices, each a pointer and a length in C; for the salvage
// one of them is a slice of plain structs.
//
// Calls of one shape stay apart: C wants a name and a list of parameters for each.
//
// A call answers the refusal's number, 0 where nothing is refused, and puts the values that it tells at the front of
// the caller's numbers, as far as they fit. include/supharoek.h says the same in C's words.
#![tactic(auto)]

pub mod calls;
pub mod salvaging;
pub mod steps;
mod told;
