// The good trace: measured, and then written if there is space for it and for the list.
ghost use Rattle.std.specs.Prelude.{◌≡◌, ◌+◌, ◌≤◌, Err, length};
ghost use Rattle.terms.specs.Areas.{fronted};
ghost use Rattle.trace.specs.Writing.{put};
ghost use Rattle.salvage.specs.Pieces.{pieces_of};
ghost use Rattle.salvage.specs.Good.{good_of};
ghost use Rattle.salvage.specs.Answers.{salvaging, salvaged_answer, area_after};
ghost use Rattle.salvage.specs.Steps.{good_after, entries_from, entries_told, start_of};

use crate::pieces::pieces_from;
use crate::{Salvaged, Unsalvaged};
use terms::range::LARGEST_SIZE;
use trace::header::read_header;

// The answer; and for the list, the place from which to look for its first entry and how many entries it is to hold.
#[derive(Clone, Copy, Debug, PartialEq, Eq)]
pub struct Kept {
    pub answer: Result<Salvaged, Unsalvaged>,
    pub start: usize,
    pub entries: usize,
}

// The bytes that are kept, the header's too, which ends at a place, and the entries of the rest.
#[tactic(auto, using(crate::proofs::Measures::measures))]
fn measure(trace: &[u8], start: usize) -> Salvaged
    requires { start ≤ length trace.now }
    ensures { (result.bytes ≡ length (good_after trace.now start))
        × (result.entries ≡ length (entries_from trace.now start)) }
{
    let mut bytes = start;
    let mut entries: usize = 0;
    for piece in pieces_from(trace, start) {
        match piece.left_out {
            None => bytes += piece.end - piece.start,
            Some(_) => entries += 1,
        }
    }
    Salvaged { bytes, entries }
}

// Puts bytes into a buffer from an offset on. Byte by byte: records are short, and the library's copy would want a call of the C library that no other part
// of the library for C asks for.
fn copy_bytes(buffer: &mut [u8], at: usize, bytes: &[u8])
    requires { at + length bytes.now ≤ length buffer.old }
    ensures { buffer.new ≡ put buffer.old at bytes.now }
{
    for i in 0..bytes.len() {
        buffer[at + i] = bytes[i];
    }
}

// Puts the header, which ends at a place, and the pieces that are kept after it at the front of the output.
#[tactic(auto, using(crate::proofs::good::Keeps::keeps))]
fn copy_kept(out: &mut [u8], trace: &[u8], start: usize)
    requires { (start ≤ length trace.now) × (length (good_after trace.now start) ≤ length out.old) }
    ensures { out.new ≡ fronted (good_after trace.now start) out.old }
{
    copy_bytes(out, 0, &trace[..start]);
    let mut next = start;
    for piece in pieces_from(trace, start) {
        if piece.left_out.is_none() {
            copy_bytes(out, next, &trace[piece.start..piece.end]);
            next += piece.end - piece.start;
        }
    }
}

// A refusal: nothing was written, and there is no entry to write.
fn unwritten(refusal: Unsalvaged, start: usize) -> Kept
    ensures { (result.answer ≡ Err refusal) × (result.start ≡ start) × (result.entries ≡ 0) }
{
    Kept {
        answer: Err(refusal),
        start,
        entries: 0,
    }
}

// All but the list, of which only the room is told.
pub fn keep_bytes(trace: &[u8], out: &mut [u8], room: usize) -> Kept
    ensures { (salvaged_answer result.answer ≡ salvaging trace.now (length out.old) room)
        × (out.new ≡ area_after (salvaged_answer result.answer) (good_of trace.now) out.old)
        × (result.start ≡ start_of (pieces_of trace.now))
        × (result.entries ≡ entries_told (salvaged_answer result.answer)) }
{
    let header = match read_header(trace, LARGEST_SIZE as u64) {
        Ok(header) => header,
        Err(fault) => return unwritten(Unsalvaged::Header(fault), 0),
    };
    let start = header.length;
    let need = measure(trace, start);
    if out.len() < need.bytes || room < need.entries {
        return unwritten(Unsalvaged::Short, start);
    }
    copy_kept(out, trace, start);
    Kept {
        answer: Ok(need),
        start,
        entries: need.entries,
    }
}
