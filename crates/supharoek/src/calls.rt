// The calls on traces: headers, records, the run and the sheet.
//
// What a call tells is found by a function of its own, where `?` makes one kind of refusal of all.
ghost use Rattle.std.specs.Prelude.{◌≡◌, length};
ghost use Rattle.terms.specs.Ranges.{size};
ghost use Rattle.terms.specs.Reads.{read_of};
ghost use Rattle.trace.specs.Reading.{header_at, header_of, placed_at};
ghost use Rattle.trace.specs.Writing.{header_writing, record_writing, header_buffer, record_buffer};
ghost use Rattle.sizes.specs.Answers.{areas_of, AreasAre, run_in};
ghost use Rattle.sheet_text.specs.Sheet.{sheet_of, Shows};
ghost use Rattle.supharoek.specs.Told.{Tells, header_told, record_told, writing_told, run_told, told_of};

use crate::told::{Refused, tell};
use terms::range::LARGEST_SIZE;

#[tactic(auto, unfolding(terms::specs::Ranges::size))]
fn header_values(trace: &[u8]) -> Result<[u64; 3], Refused>
    ensures { told_of result ≡ header_told (header_at size.largest trace.now 0) }
{
    let header = trace::header::read_header(trace, LARGEST_SIZE as u64)?;
    Ok([header.edition, header.size, header.length as u64])
}

// Reads a header: edition, size, length; or the place of the refusal.
#[unsafe(no_mangle)]
pub extern "C" fn supharoek_read_header(trace: &[u8], out: &mut [u64]) -> u32
    ensures { Tells (header_told (header_at size.largest trace.now 0)) result out.old out.new }
{
    tell(out, header_values(trace))
}

fn record_values(part: &[u8]) -> Result<[u64; 4], Refused>
    ensures { told_of result ≡ record_told (placed_at part.now 0) }
{
    let record = trace::record::read_record(part)?;
    Ok([
        record.volume,
        record.block,
        record.priority,
        record.length as u64,
    ])
}

// Reads a record from the start of a part of a trace: volume, block, priority, length; or the place of the refusal.
#[unsafe(no_mangle)]
pub extern "C" fn supharoek_read_record(part: &[u8], out: &mut [u64]) -> u32
    ensures { Tells (record_told (placed_at part.now 0)) result out.old out.new }
{
    tell(out, record_values(part))
}

fn write_header_values(
    buffer: &mut [u8],
    at: usize,
    edition: u64,
    size: u64,
) -> Result<[u64; 1], Refused>
    ensures told { told_of result ≡ writing_told (header_writing (header_of edition size) (length buffer.old) at) }
    ensures buffer { buffer.new ≡ header_buffer (header_of edition size) buffer.old at }
{
    let length = trace::header::write_header(buffer, at, edition, size)?;
    Ok([length as u64])
}

// Writes a header into a buffer from an offset on: its length.
#[unsafe(no_mangle)]
pub extern "C" fn supharoek_write_header(
    buffer: &mut [u8],
    at: usize,
    edition: u64,
    size: u64,
    out: &mut [u64],
) -> u32
    ensures told { Tells (writing_told (header_writing (header_of edition size) (length buffer.old) at)) result out.old out.new }
    ensures buffer { buffer.new ≡ header_buffer (header_of edition size) buffer.old at }
{
    tell(out, write_header_values(buffer, at, edition, size))
}

fn write_record_values(
    buffer: &mut [u8],
    at: usize,
    volume: u64,
    block: u32,
    priority: u64,
) -> Result<[u64; 1], Refused>
    ensures told { told_of result ≡ writing_told (record_writing (read_of volume block priority) (length buffer.old) at) }
    ensures buffer { buffer.new ≡ record_buffer (read_of volume block priority) buffer.old at }
{
    let length = trace::record::write_record(buffer, at, volume, block, priority)?;
    Ok([length as u64])
}

// Writes a record likewise.
#[unsafe(no_mangle)]
pub extern "C" fn supharoek_write_record(
    buffer: &mut [u8],
    at: usize,
    volume: u64,
    block: u32,
    priority: u64,
    out: &mut [u64],
) -> u32
    ensures told { Tells (writing_told (record_writing (read_of volume block priority) (length buffer.old) at)) result out.old out.new }
    ensures buffer { buffer.new ≡ record_buffer (read_of volume block priority) buffer.old at }
{
    tell(
        out,
        write_record_values(buffer, at, volume, block, priority),
    )
}

fn run_values(
    trace: &[u8],
    blocks: &mut [u64],
    stretches: &mut [u16],
    counts: &mut [u64],
) -> Result<[u64; 3], Refused>
    ensures told { told_of result ≡ run_told (run_in trace.now blocks.old stretches.old counts.old).answer }
    ensures areas { AreasAre (run_in trace.now blocks.old stretches.old counts.old).areas
        blocks.new stretches.new counts.new }
{
    let report = sizes::run::run(trace, blocks, stretches, counts)?;
    Ok([report.reads, report.total, report.one])
}

// Runs a trace for all sizes: the reads and the two peaks; or the place of the refusal.
#[unsafe(no_mangle)]
pub extern "C" fn supharoek_run(
    trace: &[u8],
    blocks: &mut [u64],
    stretches: &mut [u16],
    counts: &mut [u64],
    out: &mut [u64],
) -> u32
    ensures told { Tells (run_told (run_in trace.now blocks.old stretches.old counts.old).answer) result out.old out.new }
    ensures areas { AreasAre (run_in trace.now blocks.old stretches.old counts.old).areas
        blocks.new stretches.new counts.new }
{
    tell(out, run_values(trace, blocks, stretches, counts))
}

// Runs a trace and puts its sheet into a text, as far as it fits: the length of the whole sheet.
#[unsafe(no_mangle)]
pub extern "C" fn supharoek_sheet(
    trace: &[u8],
    blocks: &mut [u64],
    stretches: &mut [u16],
    counts: &mut [u64],
    text: &mut [u8],
) -> usize
    ensures text { Shows (sheet_of trace.now (areas_of blocks.old stretches.old counts.old)) result text.old text.new }
    ensures areas { AreasAre (run_in trace.now blocks.old stretches.old counts.old).areas
        blocks.new stretches.new counts.new }
{
    sheet_text::sheet::sheet(trace, blocks, stretches, counts, text)
}
