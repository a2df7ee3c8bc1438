// A card as a slice of its places: where a block stands, and one read.
ghost use Rattle.std.specs.Prelude.{◌≡◌, suc, ◌%◌, ◌≤◌, max, length, get_or};
ghost use Rattle.terms.specs.Ranges.{volume, block};
ghost use Rattle.card.specs.Rule.{key_of, place, lowered, raised, outcome, effects, outcome_on, moved_from, after_read};
ghost use Rattle.card.specs.Outcomes.{outcome_number};

use crate::outcome::Outcome;
use std::cmp::Ordering;

// How many volumes there are, and how many blocks each.
const VOLUMES: u64 = 65536;

const BLOCKS: u64 = 4294967296;

// The key of a block; a volume or a block past its range counts from 0 again.
#[tactic(auto, unfolding(crate::specs::Rule::key_of, terms::specs::Ranges::volume, terms::specs::Ranges::block))]
pub fn key_of(v: u64, b: u64) -> u64
    ensures { result ≡ key_of (v % suc volume.largest) (b % suc block.largest) }
{
    v % VOLUMES * BLOCKS + b % BLOCKS + 1
}

// The place of a block; by fours first, because the search is a large part of a read. 0 says that it is not there, and no Option does, since the card rule
// counts so: its outcomes are told apart by comparisons with that 0.
pub fn place_of(card: &[u64], key: u64) -> usize
    ensures { result ≡ place card.now key }
{
    let fours = card
        .chunks_exact(4)
        .position(|four| four.contains(&key))
        .unwrap_or(card.len() / 4);
    let above = fours * 4;
    card[above..]
        .iter()
        .position(|place| *place == key)
        .map_or(0, |below| above + below + 1)
}

// The outcome of a read on a card of some size, for a block at place j and a priority p.
#[tactic(auto, unfolding(crate::specs::Rule::outcome))]
fn outcome_of(size: usize, j: usize, p: usize) -> Outcome
    ensures { outcome_number result ≡ outcome size j p }
{
    if j == 0 {
        if p <= size {
            return Outcome::Insert;
        }
        return Outcome::MissBypass;
    }
    match p.cmp(&j) {
        Ordering::Less => Outcome::Up,
        Ordering::Equal => Outcome::Same,
        Ordering::Greater if size < p => Outcome::HitBypass,
        Ordering::Greater => Outcome::Down,
    }
}

// A key comes to the first place, and the places up to the last shift one lower, in one sweep. This and `raise` are the card rule's two effects by name.
#[tactic(auto, using(crate::proofs::places::Copies::lowered_copy))]
fn lower(card: &mut [u64], first: usize, last: usize, key: u64)
    requires { (1 ≤ first) × (first ≤ last) × (last ≤ length card.old) }
    ensures { card.new ≡ lowered card.old first last key }
{
    card.copy_within(first - 1..last - 1, first);
    card[first - 1] = key;
}

// The places up to the last shift one higher, over the first, and a key comes to the last, in one sweep.
#[tactic(auto, using(crate::proofs::places::Copies::raised_copy))]
fn raise(card: &mut [u64], first: usize, last: usize, key: u64)
    requires { (1 ≤ first) × (first ≤ last) × (last ≤ length card.old) }
    ensures { card.new ≡ raised card.old first last key }
{
    card.copy_within(first..last, first - 1);
    card[last - 1] = key;
}

// The shift that an outcome stands for.
#[tactic(auto, unfolding(crate::specs::Rule::outcome))]
fn shift(card: &mut [u64], kind: Outcome, j: usize, p: usize, key: u64)
    requires { (outcome_number kind ≡ outcome (length card.old) j p) × (1 ≤ p) × (j ≤ length card.old) }
    ensures { card.new ≡ get_or (effects card.old key j p) (outcome_number kind) card.old }
{
    let size = card.len();
    match kind {
        Outcome::Up => lower(card, p, j, key),
        Outcome::Same => {}
        Outcome::Down => raise(card, j, p, key),
        Outcome::HitBypass => raise(card, j, size, 0),
        Outcome::Insert => lower(card, p, size, key),
        Outcome::MissBypass => {}
    }
}

// The place that a priority asks for: a read without a hint has priority 0, and comes to the top.
pub fn at_least_one(priority: usize) -> usize
    ensures { result ≡ max 1 priority }
{
    priority.max(1)
}

// The second half of a read, for a block that was found at place j; a place past the last is none, and nothing moves.
#[tactic(auto, unfolding(crate::specs::Rule::moved_from))]
pub fn move_from(card: &mut [u64], key: u64, j: usize, priority: usize)
    ensures { card.new ≡ moved_from card.old key j (max 1 priority) }
{
    if card.len() < j {
        return;
    }
    let p = at_least_one(priority);
    let outcome = outcome_of(card.len(), j, p);
    shift(card, outcome, j, p, key);
}

// One read on a card of any size: its outcome.
#[tactic(auto, using(crate::proofs::OutcomeCases::moved_read))]
pub fn read(card: &mut [u64], key: u64, priority: usize) -> Outcome
    ensures { (outcome_number result ≡ outcome_on card.old key (max 1 priority)) × (card.new ≡ after_read card.old key (max 1 priority)) }
{
    let j = place_of(card, key);
    let outcome = outcome_of(card.len(), j, at_least_one(priority));
    move_from(card, key, j, priority);
    outcome
}
