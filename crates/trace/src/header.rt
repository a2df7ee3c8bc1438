// The header: edition, largest size.
ghost use Rattle.std.specs.Prelude.{◌≡◌, length};
ghost use Rattle.trace.specs.Reading.{header_at, header_of};
ghost use Rattle.trace.specs.Spelling.{spellings, header_values};
ghost use Rattle.trace.specs.Writing.{header_writing, buffer_after};
ghost use Rattle.trace.specs.Answers.{header_answer, written_answer};

use crate::field::read_field;
use crate::spelling::write_numbers;
use terms::range::Range;
use terms::{Fault, Refusal};

#[derive(Clone, Copy, Debug, PartialEq, Eq)]
pub struct Header {
    pub edition: u64,
    pub size: u64,
    pub length: usize,
}

// The header of a trace, whose size is to be no larger than the largest.
#[tactic(auto, unfolding(crate::specs::Reading::header_at, terms::specs::Ranges::size))]
pub fn read_header(trace: &[u8], largest: u64) -> Result<Header, Fault>
    ensures { header_answer result ≡ header_at largest trace.now 0 }
{
    let edition = read_field(trace, 0, Range::edition())?;
    let size = read_field(trace, edition.end, Range::size().up_to(largest))?;
    Ok(Header {
        edition: edition.value,
        size: size.value,
        length: size.end,
    })
}

// Writes a header into a buffer from an offset on; answers its length.
#[tactic(auto, using(crate::proofs::Ranged::header_low), unfolding(crate::specs::Writing::header_writing))]
pub fn write_header(buffer: &mut [u8], at: usize, edition: u64, size: u64) -> Result<usize, Refusal>
    ensures { (written_answer result ≡ header_writing (header_of edition size) (length buffer.old) at)
        × (buffer.new ≡ buffer_after (written_answer result) buffer.old at (spellings (header_values (header_of edition size)))) }
{
    Range::edition().check(edition)?;
    Range::size().check(size)?;
    write_numbers(buffer, at, &[edition, size])
}
