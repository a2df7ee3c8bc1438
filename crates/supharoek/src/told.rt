// The values that a call tells, and the number that it answers.
ghost use Rattle.std.specs.Prelude.{◌≡◌, None, Some, Err, set};
ghost use Rattle.salvage.specs.Answers.{salvaged_answer};
ghost use Rattle.sheet_text.specs.Sheet.{shown};
ghost use Rattle.supharoek.specs.Told.{Tells, salvage_told, told_of};

use salvage::Unsalvaged;
use terms::{Fault, Refusal};

// Why a call is refused, and the place that it tells, where the refusal has one.
#[derive(Clone, Copy, Debug, PartialEq, Eq)]
pub struct Refused {
    pub refusal: Refusal,
    pub place: Option<usize>,
}

impl From<Refusal> for Refused {
    ghost from_gives = { λ refusal refused. refused ≡ record { refusal = refusal; place = None } };

    fn from(refusal: Refusal) -> Refused {
        Refused {
            refusal,
            place: None,
        }
    }
}

impl From<Fault> for Refused {
    ghost from_gives = { λ fault refused. refused ≡ record { refusal = fault.refusal; place = Some fault.place } };

    fn from(fault: Fault) -> Refused {
        Refused {
            refusal: fault.refusal,
            place: Some(fault.place),
        }
    }
}

impl From<Unsalvaged> for Refused {
    ghost from_gives = { λ unsalvaged refused. told_of (Err refused) ≡ salvage_told (salvaged_answer (Err unsalvaged)) };

    fn from(unsalvaged: Unsalvaged) -> Refused {
        match unsalvaged {
            Unsalvaged::Header(fault) => Refused::from(fault),
            Unsalvaged::Short => Refused::from(Refusal::Space),
        }
    }
}

// One value, where there is a place for it.
fn put(out: &mut [u64], at: usize, value: u64)
    ensures { out.new ≡ set out.old at value }
{
    if at < out.len() {
        out[at] = value;
    }
}

// Values go to the front of the caller's numbers, as far as they fit. They are a handful, which one by one cost less than a call that copies.
fn show(out: &mut [u64], values: &[u64])
    ensures { out.new ≡ shown values.now out.old }
{
    for at in 0..values.len() {
        put(out, at, values[at]);
    }
}

// Tells what a call found, or why it is refused, and answers the refusal's number, 0 where nothing is refused.
pub fn tell<const N: usize>(out: &mut [u64], found: Result<[u64; N], Refused>) -> u32
    ensures { Tells (told_of found.entry) result out.old out.new }
{
    match found {
        Ok(values) => {
            show(out, &values);
            0
        }
        Err(refused) => {
            if let Some(place) = refused.place {
                show(out, &[place as u64]);
            }
            u32::from(refused.refusal)
        }
    }
}
