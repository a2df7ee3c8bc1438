// Salvage: a good trace from one with bad records, and a list of what was left out.
#![tactic(auto)]

ghost use Rattle.std.specs.Prelude.{◌≡◌, ◌≤◌, length};
ghost use Rattle.salvage.specs.Good.{good_of};
ghost use Rattle.salvage.specs.Listing.{list_of};
ghost use Rattle.salvage.specs.Answers.{salvaging, salvaged_answer, area_after};
ghost use Rattle.salvage.specs.Steps.{written};

use crate::good::keep_bytes;
use crate::listing::next_entry;
use terms::Fault;

pub mod good;
pub mod listing;
mod pieces;

// Bytes that were left out: their offset in the trace, how many they are, and the number of the refusal.
#[repr(C)]
#[derive(Clone, Copy, Debug, Default, PartialEq, Eq)]
pub struct Entry {
    pub offset: u64,
    pub length: u64,
    pub number: u64,
}

// The bytes of the good trace and the entries of the list.
#[derive(Clone, Copy, Debug, PartialEq, Eq)]
pub struct Salvaged {
    pub bytes: usize,
    pub entries: usize,
}

// Why nothing was salvaged.
#[derive(Clone, Copy, Debug, PartialEq, Eq)]
pub enum Unsalvaged {
    // The header is refused.
    Header(Fault),
    // The output or the list is too short for this trace.
    Short,
}

// Puts the first n entries from a place of a trace on at the front of the list.
fn write_entries(list: &mut [Entry], trace: &[u8], from: usize, n: usize)
    requires { n ≤ length list.old }
    ensures { list.new ≡ written n trace.now from 0 list.old }
{
    let mut at = from;
    for k in 0..n {
        let next = next_entry(trace, at);
        list[k] = next.entry;
        at = next.at;
    }
}

// Writes the header and the records that can be kept, and lists the rest.
pub fn salvage(trace: &[u8], out: &mut [u8], list: &mut [Entry]) -> Result<Salvaged, Unsalvaged>
    ensures { (salvaged_answer result ≡ salvaging trace.now (length out.old) (length list.old))
        × ((out.new ≡ area_after (salvaged_answer result) (good_of trace.now) out.old)
        × (list.new ≡ area_after (salvaged_answer result) (list_of trace.now) list.old)) }
{
    let kept = keep_bytes(trace, out, list.len());
    write_entries(list, trace, kept.start, kept.entries);
    kept.answer
}
