// The ranges of the numbers of a trace, a card and a read.
ghost use Rattle.std.specs.Prelude.{◌≡◌, cond};
ghost use Rattle.terms.specs.Ranges.{in_range, up_to, edition, size, volume, block, priority};

use crate::Refusal;

pub const LARGEST_SIZE: usize = 127;

const LARGEST_VOLUME: u64 = 65535;

// Each number that has a spelling is a block.
const LARGEST_BLOCK: u64 = 4294967295;

// The priority of a read without a hint.
const LEAST_PRIORITY: u64 = 0;

const LARGEST_PRIORITY: u64 = 16383;

// The least and the largest value of a number, and the refusal of any other.
#[derive(Clone, Copy, Debug, PartialEq, Eq)]
pub struct Range {
    pub least: u64,
    pub largest: u64,
    pub refusal: Refusal,
}

// The five ranges are functions of their own, each with a promise that names it, so that no caller knows a bound's value.
impl Range {
    #[tactic(auto, unfolding(crate::specs::Ranges::edition))]
    pub fn edition() -> Range
        ensures { result ≡ edition }
    {
        Range {
            least: 1,
            largest: 1,
            refusal: Refusal::Edition,
        }
    }

    #[tactic(auto, unfolding(crate::specs::Ranges::size))]
    pub fn size() -> Range
        ensures { result ≡ size }
    {
        Range {
            least: 1,
            largest: LARGEST_SIZE as u64,
            refusal: Refusal::Size,
        }
    }

    #[tactic(auto, unfolding(crate::specs::Ranges::volume))]
    pub fn volume() -> Range
        ensures { result ≡ volume }
    {
        Range {
            least: 0,
            largest: LARGEST_VOLUME,
            refusal: Refusal::Volume,
        }
    }

    #[tactic(auto, unfolding(crate::specs::Ranges::block))]
    pub fn block() -> Range
        ensures { result ≡ block }
    {
        Range {
            least: 0,
            largest: LARGEST_BLOCK,
            refusal: Refusal::Form,
        }
    }

    #[tactic(auto, unfolding(crate::specs::Ranges::priority))]
    pub fn priority() -> Range
        ensures { result ≡ priority }
    {
        Range {
            least: LEAST_PRIORITY,
            largest: LARGEST_PRIORITY,
            refusal: Refusal::Priority,
        }
    }

    // The same range up to another largest value.
    pub fn up_to(self, largest: u64) -> Range
        ensures { result ≡ up_to self largest }
    {
        Range { largest, ..self }
    }

    pub fn contains(self, value: u64) -> bool
        ensures { result ≡ in_range self value }
    {
        self.least <= value && value <= self.largest
    }

    // Refuses a value that is not in the range.
    pub fn check(self, value: u64) -> Result<(), Refusal>
        ensures { result ≡ cond (in_range self value) (Ok tt) (Err self.refusal) }
    {
        if self.contains(value) {
            Ok(())
        } else {
            Err(self.refusal)
        }
    }
}
