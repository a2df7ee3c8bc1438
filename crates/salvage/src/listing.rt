// The entries of what is left out, one after the other.
ghost use Rattle.std.specs.Prelude.{◌≡◌};
ghost use Rattle.salvage.specs.Steps.{next_from};

use crate::Entry;
use crate::pieces::pieces_from;

// An entry, and the place after its piece.
#[derive(Clone, Copy, Debug, PartialEq, Eq)]
pub struct Next {
    pub entry: Entry,
    pub at: usize,
}

// The first entry from a place of a trace on; zeros where there is none.
#[tactic(auto, using(crate::proofs::Turns::next_of_pieces))]
pub fn next_entry(trace: &[u8], from: usize) -> Next
    ensures { result ≡ next_from trace.now from }
{
    let mut at = from;
    for piece in pieces_from(trace, from) {
        at = piece.end;
        if let Some(refusal) = piece.left_out {
            let entry = Entry {
                offset: piece.start as u64,
                length: (piece.end - piece.start) as u64,
                number: u64::from(u32::from(refusal)),
            };
            return Next { entry, at };
        }
    }
    let entry = Entry::default();
    Next { entry, at }
}
