// The words that every layer shares: the refusals and the ranges of the numbers.
#![tactic(auto)]

ghost use Rattle.std.specs.Prelude.{◌≡◌};
ghost use Rattle.terms.specs.Refusals.{number_of};

pub mod range;

// Why a call refuses its input, each with the number by which people and other languages know it.
#[derive(Clone, Copy, Debug, PartialEq, Eq)]
pub enum Refusal {
    Cut = 1,
    Form,
    Edition,
    Size,
    Volume,
    Priority,
    Room,
    Space,
    State,
    Large,
    Ratio,
}

impl From<Refusal> for u32 {
    ghost from_gives = { λ refusal number. number ≡ number_of refusal };

    fn from(refusal: Refusal) -> u32 {
        refusal as u32
    }
}

// Why a trace is refused, and the offset of the number at fault.
#[derive(Clone, Copy, Debug, PartialEq, Eq)]
pub struct Fault {
    pub refusal: Refusal,
    pub place: usize,
}
