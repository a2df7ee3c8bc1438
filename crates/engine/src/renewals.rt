// The row of one place after a read: it stays, or its list goes one place up or down the card, or the block read is put in.
ghost use Rattle.std.specs.Prelude.{◌≡◌, true, ◌⊎◌, ℕ, ◌+◌, ◌-◌, ◌^◌, ◌<◌, ◌≤◌, min, length};
ghost use Rattle.engine.specs.Moves.{Family};
ghost use Rattle.engine.specs.Rows.{row_length, row_of, stretches_length};
ghost use Rattle.engine.specs.Renewals.{Fits, Ready, Above, Below, Sinks, RowAt, Renewed, Renews, ChangesBelow, Grown, Together};

use crate::rows::{
    Changes, Span, close, lower_pair, merge_row, move_nothing, raise_list, write_row,
};

// A read as the rows see it: the size of the largest card, the length of the longest row, the priority in reach, and the place of the block read in the largest card.
#[derive(Clone, Copy, Debug, PartialEq, Eq)]
pub struct RowRead {
    pub n: u16,
    pub width: usize,
    pub p: u16,
    pub j: u16,
}

impl RowRead {
    // The row of place k.
    pub fn row(self, k: u16) -> Span
        requires { (0 < k) × (self.n < 65535) × (self.width ≡ row_length self.n) }
        ensures lies { result ≡ row_of self.n k }
        ensures inside { k ≤ self.n → (2 ≤ result.room) × (result.start + result.room ≤ stretches_length self.n) }
        ensures short { (result.room ≤ self.width) × (result.room < 2 ^ 16) }
    {
        Span::of(self.width, k as usize)
    }
}

impl Changes {
    // Both together.
    fn with(self, more: Changes) -> Changes
        requires { (self.gained + more.gained < 2 ^ 64) × (self.lost + more.lost < 2 ^ 64) }
        ensures { Together self more result }
    {
        Changes {
            gained: self.gained + more.gained,
            lost: self.lost + more.lost,
            longest: self.longest.max(more.longest),
        }
    }
}

// The row of place k, which is above p and the block read: only a place from the upper of these two on changes.
pub fn above_row(
    area: &mut [u16],
    list: &[u16],
    scratch: &mut [u16],
    read: RowRead,
    k: u16,
    lo: u16,
    changes: Changes,
) -> Changes
    requires { Ready read area.old list.now scratch.old changes (2 ^ 48) × Above read lo × (0 < k) × (k < lo) }
    ensures grown { Grown changes result (2 ^ 16) }
    ensures renews { Renews list.now read k k changes result area.old area.new }
{
    let row = read.row(k);
    if area[row.start + 1] < lo {
        return changes;
    }
    let more = merge_row(
        area, row.start, row.room, row.start, row.room, list, scratch, read.p, read.n,
    );
    changes.with(more)
}

// A block at place k that is there at no size, or whose places are all below those of the block read, whose list begins with start and place.
fn is_below(first: u16, start: u16, place: u16, k: u16) -> bool
    ensures { result ≡ true → (first ≡ 0) ⊎ ((start ≤ first) × (place < k)) }
{
    first == 0 || (start <= first && place < k)
}

// The row of place k, which is below p and the block read: nothing changes where the block read was above it wherever it is.
pub fn below_row(
    area: &mut [u16],
    list: &[u16],
    scratch: &mut [u16],
    read: RowRead,
    k: u16,
    changes: Changes,
) -> Changes
    requires { Ready read area.old list.now scratch.old changes (2 ^ 48) × Below read k }
    ensures grown { Grown changes result (2 ^ 16) }
    ensures renews { Renews list.now read k k changes result area.old area.new }
{
    let row = read.row(k);
    if is_below(area[row.start], list[0], list[1], k) {
        return changes;
    }
    let more = merge_row(
        area, row.start, row.room, row.start, row.room, list, scratch, read.p, read.n,
    );
    changes.with(more)
}

// The row of place k gets what was one place above it. `up_row` is no case of it: one function for both is not inlined into the sweeps, and cost more.
pub fn down_row(
    area: &mut [u16],
    list: &[u16],
    scratch: &mut [u16],
    read: RowRead,
    k: u16,
    changes: Changes,
) -> Changes
    requires { Ready read area.old list.now scratch.old changes (2 ^ 48) × (read.p < k) × (k ≤ read.n) × ((read.j ≡ 0) ⊎ (k ≤ read.j)) }
    ensures grown { Grown changes result (2 ^ 16) }
    ensures renews { Renews list.now read (k - 1) k changes result area.old area.new }
{
    let from = read.row(k - 1);
    let to = read.row(k);
    if move_nothing(area, from, to) {
        return changes;
    }
    if lower_pair(area, from, to, k - 1) {
        return changes;
    }
    let more = merge_row(
        area, from.start, from.room, to.start, to.room, list, scratch, read.p, read.n,
    );
    changes.with(more)
}

// The row of place k gets what was one place below it.
pub fn up_row(
    area: &mut [u16],
    list: &[u16],
    scratch: &mut [u16],
    read: RowRead,
    k: u16,
    changes: Changes,
) -> Changes
    requires { Ready read area.old list.now scratch.old changes (2 ^ 48) × Sinks read (k + 1) × (read.j ≤ k) }
    ensures grown { Grown changes result (2 ^ 16) }
    ensures renews { Renews list.now read (k + 1) k changes result area.old area.new }
{
    let from = read.row(k + 1);
    let to = read.row(k);
    if move_nothing(area, from, to) {
        return changes;
    }
    if raise_list(area, from, to, k + 1, read.p, list[0], list[1]) {
        return changes;
    }
    let more = merge_row(
        area, from.start, from.room, to.start, to.room, list, scratch, read.p, read.n,
    );
    changes.with(more)
}

// The last row that is left gets the block read, or nothing.
pub fn own_row(area: &mut [u16], read: RowRead, changes: Changes) -> Changes
    requires { Fits read (length area.old) × ((read.p ≤ read.n) ⊎ (0 < read.j)) × (read.j ≤ read.n) × ChangesBelow changes (2 ^ 48) }
    ensures grown { Grown changes result (2 ^ 16) }
    ensures renewed { (J : ℕ → ℕ) (L : ℕ → ℕ → ℕ) → Family L read.n → RowAt area.old read (min read.p read.n) (L (min read.p read.n))
        → Renewed read J L (min read.p read.n) changes result area.old area.new }
{
    if read.n < read.p {
        close(area, read.row(read.n), 0);
        return changes;
    }
    write_row(area, read.row(read.p), read.p, read.p);
    changes.with(Changes {
        gained: 1,
        lost: 0,
        longest: 1,
    })
}
