// When a size and places are a state.
ghost use Rattle.std.specs.Prelude.{◌≡◌};
ghost use Rattle.std.specs.List.{list_all};
ghost use Rattle.card.specs.State.{at_most, apart, is_state};

use crate::places::place_of;
use crate::step::Card;
use terms::range::Range;

// The key of the largest volume and the largest block.
const LARGEST_KEY: u64 = 281474976710656;

// Whether no place holds more than a number: 0 for empty places.
fn all_at_most(places: &[u64], most: u64) -> bool
    ensures { result ≡ list_all (at_most most) places.now }
{
    places.iter().all(|place| *place <= most)
}

// Whether no block is in two places.
fn all_apart(places: &[u64]) -> bool
    ensures { result ≡ apart places.now }
{
    for (above, &key) in places.iter().enumerate() {
        if key != 0 && place_of(&places[above + 1..], key) != 0 {
            return false;
        }
    }
    true
}

// The tests, in their order.
#[tactic(auto, unfolding(crate::specs::State::is_state, crate::specs::State::largest_key, crate::specs::Rule::key_of, terms::specs::Ranges::size, terms::specs::Ranges::volume, terms::specs::Ranges::block))]
pub fn is_state(card: &Card) -> bool
    ensures { result ≡ is_state card.now.size card.now.places }
{
    Range::size().contains(card.size as u64)
        && all_at_most(&card.places[card.size..], 0)
        && all_at_most(&card.places, LARGEST_KEY)
        && all_apart(&card.places)
}
