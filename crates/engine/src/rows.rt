// The rows of the stretch area: a list of stretches for each place of the largest card.
ghost use Rattle.std.specs.Prelude.{◌≡◌, true, false, cond, ℕ, ◌+◌, ◌^◌, ◌<◌, ◌≤◌, eqb, length, get_or};
ghost use Rattle.terms.specs.Ranges.{size};
ghost use Rattle.engine.specs.Rows.{pairs, row_length, row_of, stretches_length, span, Row};
ghost use Rattle.engine.specs.Lists.{Begins};
ghost use Rattle.engine.specs.RowMoves.{InArea, Kept, LoadReady, Loaded, OneWritten, Closed, RowMerged, RowRaised, BothRows, CarriedNone, CarriedDown, CarriedUp, MergeReady, Merged};

use crate::lists::{copy_list, fill, merge, write_pair};
use std::ops::Range;
use terms::range::LARGEST_SIZE;

// How the number of stretches changed, and the length of the longest list that was made.
#[derive(Clone, Copy, Debug, Default, PartialEq, Eq)]
pub struct Changes {
    pub gained: usize,
    pub lost: usize,
    pub longest: usize,
}

// Where a row starts in the stretch area, and how many numbers it has room for.
#[derive(Clone, Copy, Debug, PartialEq, Eq)]
pub struct Span {
    pub start: usize,
    pub room: usize,
}

impl Span {
    // The row of place k, by the length of the longest row. No other function works out where a row lies.
    #[tactic(auto, using(crate::proofs::rows::RowLayout::row_is))]
    pub fn of(longest: usize, k: usize) -> Span
        requires { (0 < k) × (k < 2 ^ 16) × (longest ≤ 2 ^ 16) }
        ensures { (n : ℕ) → longest ≡ row_length n → result ≡ row_of n k }
    {
        Span {
            start: (k - 1) * longest,
            room: longest,
        }
    }

    // Its indices.
    fn range(self) -> Range<usize>
        requires { self.start + self.room < 2 ^ 64 }
        ensures { (result.start ≡ self.start) × (result.end ≡ self.start + self.room) }
    {
        self.start..self.start + self.room
    }
}

// The length of the longest row.
pub fn row_length(n: usize) -> usize
    requires { n < 2 ^ 63 }
    ensures { result ≡ row_length n }
{
    2 * ((n + 1) / 2)
}

// The length of all rows of the largest card.
pub const ALL_ROWS: usize = 2 * LARGEST_SIZE * ((LARGEST_SIZE + 1) / 2);

// The length of all rows.
#[tactic(auto, using(crate::proofs::Widths::size_small, crate::proofs::rows::RowLayout::stretches_small), unfolding(crate::specs::Rows::stretches_length))]
pub fn stretches_length(n: usize) -> usize
    requires { n ≤ size.largest }
    ensures { result ≡ stretches_length n }
{
    2 * n * ((n + 1) / 2)
}

// Copies the list of a row, and a zero after it; answers how many entries it has.
fn copy_row(area: &[u16], row: Span, out: &mut [u16]) -> usize
    requires { InArea row area.now × (row.room < length out.old) }
    ensures range { result ≤ row.room }
    ensures begins { (R : ℕ → ℕ) (n : ℕ) → Row area.now row (pairs R n) → (result ≡ length (pairs R n)) × Begins out.new R n }
    ensures beyond { (y : ℕ) → result < y → get_or out.new y 0 ≡ get_or out.old y 0 }
{
    copy_list(&area[row.range()], out)
}

// Copies the list of the block at place j up to its end, none where j is 0.
pub fn load(stretches: &[u16], n: usize, j: usize, out: &mut [u16])
    requires { LoadReady stretches.now out.old n j }
    ensures { Loaded stretches.now out.new n j }
{
    if j == 0 {
        return;
    }
    copy_row(stretches, Span::of(row_length(n), j), out);
}

// A row gets the stretches of a block whose list was the other.
fn renew(area: &mut [u16], row: Span, list: &[u16], other: &[u16], p: u16, n: u16) -> usize
    requires { (0 < p) × InArea row area.old × (n < 65535) }
    ensures kept { (result ≤ row.room) × Kept area.old area.new row.start row.room }
    ensures holds { RowMerged list.now other.now area.old area.new row p n result }
{
    merge(list, other, &mut area[row.range()], p, n)
}

// A row gets one stretch.
pub fn write_row(area: &mut [u16], row: Span, first: u16, place: u16)
    requires { (2 ≤ row.room) × InArea row area.old }
    ensures kept { Kept area.old area.new row.start row.room }
    ensures holds { OneWritten area.old area.new row first place }
{
    write_pair(&mut area[row.range()], first, place);
}

// A row ends after q entries.
pub fn close(area: &mut [u16], row: Span, q: usize)
    requires { InArea row area.old }
    ensures kept { Kept area.old area.new row.start row.room
        × ((x : ℕ) → x < q → x < row.room → get_or area.new (row.start + x) 0 ≡ get_or area.old (row.start + x) 0) }
    ensures closed { Closed area.old area.new row q }
{
    fill(&mut area[row.range()], q);
}

// A row with no stretch goes to another as it is; answers whether it was one.
pub fn move_nothing(area: &mut [u16], from: Span, to: Span) -> bool
    requires { BothRows from to area.old }
    ensures kept { Kept area.old area.new to.start to.room × (result ≡ false → (area.new ≡ area.old) × (0 < get_or area.old from.start 0)) }
    ensures moved { result ≡ true → CarriedNone area.old area.new from to }
{
    if 0 < area[from.start] {
        return false;
    }
    close(area, to, 0);
    true
}

// The first size of a list whose one stretch was at place s, once that is one place lower: no card of size s has the block any more.
fn lowered_first(first: u16, s: u16) -> u16
    requires { s < 65535 }
    ensures { result ≡ cond (eqb first s) (first + 1) first }
{
    if first == s { first + 1 } else { first }
}

// The list of place s, where it has one stretch, goes one place down the card; answers whether it had.
pub fn lower_pair(area: &mut [u16], from: Span, to: Span, s: u16) -> bool
    requires { BothRows from to area.old × (0 < s) × (s < 65535) }
    ensures kept { Kept area.old area.new to.start to.room × (result ≡ false → area.new ≡ area.old) }
    ensures moved { result ≡ true → CarriedDown area.old area.new from to s }
{
    if area[from.start + 1] != s {
        return false;
    }
    let first = lowered_first(area[from.start], s);
    write_row(area, to, first, s + 1);
    true
}

// The list of a row goes to an index before it, each place one less; answers how many entries it has.
fn write_raised(area: &mut [u16], from: Span, to: usize) -> usize
    requires { InArea from area.old × (to + from.room ≤ from.start) }
    ensures kept { (result ≤ from.room) × Kept area.old area.new to result }
    ensures raised { RowRaised area.old area.new from to result }
{
    for h in 0..from.room / 2 {
        let i = 2 * h;
        let place = area[from.start + i + 1];
        if place == 0 {
            return i;
        }
        area[to + i] = area[from.start + i];
        area[to + i + 1] = place - 1;
    }
    2 * (from.room / 2)
}

// The list of place s goes one place up the card as it is, where none of its places is below p and the block read, whose list begins with start and place, was above it wherever it is; answers whether it did.
pub fn raise_list(
    area: &mut [u16],
    from: Span,
    to: Span,
    s: u16,
    p: u16,
    start: u16,
    place: u16,
) -> bool
    requires { BothRows from to area.old × (to.start + to.room ≤ from.start) × (from.room ≤ to.room) }
    ensures kept { Kept area.old area.new to.start to.room × (result ≡ false → area.new ≡ area.old) }
    ensures moved { result ≡ true → CarriedUp area.old area.new from to s p start place }
{
    if s <= place || area[from.start] < start || p < area[from.start + 1] {
        return false;
    }
    let count = write_raised(area, from, to.start);
    close(area, to, count);
    true
}

// The list of a row goes to another, or the same, as the read leaves it. Where each starts, and its room, are plain numbers, which a call passes faster than a struct.
pub fn merge_row(
    area: &mut [u16],
    from: usize,
    room: usize,
    to: usize,
    space: usize,
    list: &[u16],
    scratch: &mut [u16],
    p: u16,
    n: u16,
) -> Changes
    requires { MergeReady area.old scratch.old (span from room) (span to space) p n }
    ensures kept { (result.gained ≤ space) × (result.lost ≤ room) × Kept area.old area.new to space }
    ensures merged { Merged list.now area.old area.new (span from room) (span to space) n p result }
{
    let old = copy_row(area, Span { start: from, room }, scratch) / 2;
    let new = renew(
        area,
        Span {
            start: to,
            room: space,
        },
        list,
        scratch,
        p,
        n,
    ) / 2;
    Changes {
        gained: new,
        lost: old,
        longest: new,
    }
}
