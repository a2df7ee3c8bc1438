// The pieces of a trace after its header: a record that is kept, or bytes that are left out.
ghost use Rattle.std.specs.Prelude.{◌≡◌, ◌≤◌, length};
ghost use Rattle.std.specs.Iterator.{YieldsFirstBy, item_count};
ghost use Rattle.trace.specs.Reading.{formed_at};
ghost use Rattle.salvage.specs.Pieces.{form_end, piece_at};
ghost use Rattle.salvage.specs.Steps.{told, told_from, piece_told, pieces_left};

use terms::Refusal;
use trace::record::{read_form, read_record};

// Where a piece begins, the place after it, and why its bytes are left out where they are.
#[derive(Clone, Copy, Debug, PartialEq, Eq)]
pub struct Piece {
    pub start: usize,
    pub end: usize,
    pub left_out: Option<Refusal>,
}

// How long a record is that is refused: as long as its numbers where these are well formed, and else all that is left.
fn refused_length(part: &[u8]) -> usize
    ensures { result ≡ form_end (length part.now) (formed_at part.now 0) }
{
    match read_form(part) {
        Ok(record) => record.length,
        Err(_) => part.len(),
    }
}

// The piece that begins at a place of a trace.
// It and `next` are part of each loop, which then needs no piece in memory.
#[inline(always)]
#[tactic(auto, using(crate::proofs::pieces::Cases::piece_cases))]
fn piece_at(trace: &[u8], start: usize) -> Piece
    requires { start ≤ length trace.now }
    ensures { piece_told result ≡ told (piece_at trace.now start) }
{
    let part = &trace[start..];
    match read_record(part) {
        Ok(record) => Piece {
            start,
            end: start + record.length,
            left_out: None,
        },
        Err(fault) => Piece {
            start,
            end: start + refused_length(part),
            left_out: Some(fault.refusal),
        },
    }
}

// The pieces of a trace from a place to its end, one after the other.
#[derive(Drop)]
pub struct Pieces<'a> {
    trace: &'a [u8],
    at: usize,
}

pub fn pieces_from(trace: &[u8], at: usize) -> Pieces<'_>
    ensures { pieces_left result ≡ told_from trace.now at }
{
    Pieces { trace, at }
}

impl Iterator for Pieces<'_> {
    type Item = Piece;

    ghost next_gives = { YieldsFirstBy piece_told pieces_left };

    ghost remaining = { item_count pieces_left };

    #[inline(always)]
    #[tactic(auto, using(crate::proofs::Turns::first_of_pieces))]
    fn next(&mut self) -> Option<Piece> {
        if self.trace.len() <= self.at {
            return None;
        }
        let piece = piece_at(self.trace, self.at);
        self.at = piece.end;
        Some(piece)
    }
}
