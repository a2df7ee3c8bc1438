// The calls for one size: the step, the counts of its outcomes, and the miss ratio.
ghost use Rattle.std.specs.Prelude.{◌≡◌};
ghost use Rattle.card.specs.Ratio.{ratio_of};
ghost use Rattle.card.specs.Counts.{counting_of, counts_after};
ghost use Rattle.supharoek.specs.Told.{Tells, step_call, places_after, count_told, told_of};
ghost use Rattle.supharoek.specs.Ratios.{ratio_number, ratio_after};

use crate::told::{Refused, tell};
use card::step::{Card, step};
use terms::{Fault, Refusal};

#[tactic(auto, unfolding(terms::specs::Ranges::size, crate::specs::Told::step_call, crate::specs::Told::places_after))]
fn step_values(
    size: usize,
    places: &mut [u64],
    volume: u64,
    block: u32,
    priority: u64,
) -> Result<[u64; 2], Refused>
    ensures told { told_of result ≡ step_call size places.old volume block priority }
    ensures places { places.new ≡ places_after size places.old volume block priority }
{
    let Some(lent) = places.first_chunk_mut() else {
        return Err(Refused {
            refusal: Refusal::Room,
            place: Some(0),
        });
    };
    let given = *lent;
    let card = Card {
        size,
        places: given,
    };
    let stepped = step(card, volume, block, priority);
    let outcome = stepped.answer?;
    let left = stepped.card.places;
    *lent = left;
    Ok([u64::from(u32::from(outcome)), u64::from(outcome.is_hit())])
}

// One read on a state whose places are lent: the outcome, and whether it is a hit. Fewer places than a state has are refused
// as too little room, and what lies past them is kept.
#[unsafe(no_mangle)]
pub extern "C" fn supharoek_step(
    size: usize,
    places: &mut [u64],
    volume: u64,
    block: u32,
    priority: u64,
    out: &mut [u64],
) -> u32
    ensures told { Tells (step_call size places.old volume block priority) result out.old out.new }
    ensures places { places.new ≡ places_after size places.old volume block priority }
{
    tell(out, step_values(size, places, volume, block, priority))
}

fn count_values(outcome: u32, counts: &mut [u64]) -> Result<[u64; 1], Refused>
    ensures told { told_of result ≡ count_told (counting_of outcome counts.old) }
    ensures counts { counts.new ≡ counts_after outcome counts.old }
{
    let added = card::counting::add_outcome(outcome, counts).map_err(|refusal| Fault {
        refusal,
        place: 0,
    })?;
    Ok([added])
}

// Adds an outcome to the six counts of a card, and tells how many were added. Fewer counts are refused as too little room, and
// what lies past them is kept.
#[unsafe(no_mangle)]
pub extern "C" fn supharoek_count(outcome: u32, counts: &mut [u64], out: &mut [u64]) -> u32
    ensures told { Tells (count_told (counting_of outcome counts.old)) result out.old out.new }
    ensures counts { counts.new ≡ counts_after outcome counts.old }
{
    tell(out, count_values(outcome, counts))
}

// The miss ratio: put in the place of the caller's number, which keeps its value where there is none.
#[unsafe(no_mangle)]
pub extern "C" fn supharoek_ratio(misses: u64, reads: u64, ratio: &mut f64) -> u32
    ensures { (result ≡ ratio_number (ratio_of misses reads)) × (ratio.new ≡ ratio_after (ratio_of misses reads) ratio.old) }
{
    let Some(found) = card::ratio::miss_ratio(misses, reads) else {
        return u32::from(Refusal::Ratio);
    };
    *ratio = found;
    0
}
