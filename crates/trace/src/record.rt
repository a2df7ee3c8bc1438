// A record: volume, block, priority.
ghost use Rattle.std.specs.Prelude.{◌≡◌, length, drop};
ghost use Rattle.terms.specs.Reads.{read_of};
ghost use Rattle.trace.specs.Reading.{placed_in, placed_at, formed_at, record_at, rest_start, onwards};
ghost use Rattle.trace.specs.Spelling.{spellings, read_values};
ghost use Rattle.trace.specs.Writing.{record_writing, buffer_after};
ghost use Rattle.trace.specs.Answers.{record_answer, written_answer};

use crate::field::read_field;
use crate::spelling::write_numbers;
use terms::range::Range;
use terms::{Fault, Refusal};

#[derive(Clone, Copy, Debug, PartialEq, Eq)]
pub struct Record {
    pub volume: u64,
    pub block: u64,
    pub priority: u64,
    // The offset of the priority.
    pub priority_at: usize,
    pub length: usize,
}

// The record at the front of a part, its volume and its priority in these ranges; part of its two callers, whose ranges are constants there.
#[inline(always)]
#[tactic(auto, unfolding(crate::specs::Reading::placed_in))]
fn record_in(part: &[u8], volumes: Range, priorities: Range) -> Result<Record, Fault>
    ensures { record_answer result ≡ placed_in volumes priorities part.now 0 }
{
    let volume = read_field(part, 0, volumes)?;
    let block = read_field(part, volume.end, Range::block())?;
    let priority = read_field(part, block.end, priorities)?;
    Ok(Record {
        volume: volume.value,
        block: block.value,
        priority: priority.value,
        priority_at: block.end,
        length: priority.end,
    })
}

#[tactic(auto, unfolding(crate::specs::Reading::placed_at))]
pub fn read_record(part: &[u8]) -> Result<Record, Fault>
    ensures { record_answer result ≡ placed_at part.now 0 }
{
    record_in(part, Range::volume(), Range::priority())
}

// The same reading with the ranges wide open: it tells where a record of well-formed numbers ends.
#[tactic(auto, unfolding(crate::specs::Reading::formed_at, terms::specs::Ranges::volume, terms::specs::Ranges::priority))]
pub fn read_form(part: &[u8]) -> Result<Record, Fault>
    ensures { record_answer result ≡ formed_at part.now 0 }
{
    let widest = Range::block().largest;
    record_in(
        part,
        Range::volume().up_to(widest),
        Range::priority().up_to(widest),
    )
}

// The part after one record, or the whole part where that is refused.
#[tactic(auto, using(crate::proofs::Ends::placed_end), unfolding(crate::specs::Reading::record_at))]
pub fn rest(part: &[u8]) -> &[u8]
    ensures { (result.now ≡ drop (rest_start (record_at part.now 0)) part.now)
        × (result.ref_ptr ≡ onwards (rest_start (record_at part.now 0)) part.entry.ref_ptr) }
{
    let Ok(record) = read_record(part) else {
        return part;
    };
    &part[record.length..]
}

// The numbers of a record in their order, each as it was given: a priority of 0 is written as 0.
fn values_of(volume: u64, block: u32, priority: u64) -> [u64; 3]
    ensures { result ≡ read_values (read_of volume block priority) }
{
    [volume, block as u64, priority]
}

// Writes a record into a buffer from an offset on; answers its length.
#[tactic(auto, using(crate::proofs::Ranged::word_block), unfolding(crate::specs::Writing::record_writing))]
pub fn write_record(
    buffer: &mut [u8],
    at: usize,
    volume: u64,
    block: u32,
    priority: u64,
) -> Result<usize, Refusal>
    ensures { (written_answer result ≡ record_writing (read_of volume block priority) (length buffer.old) at)
        × (buffer.new ≡ buffer_after (written_answer result) buffer.old at (spellings (read_values (read_of volume block priority)))) }
{
    Range::volume().check(volume)?;
    Range::priority().check(priority)?;
    write_numbers(buffer, at, &values_of(volume, block, priority))
}
