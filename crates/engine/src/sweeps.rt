// One read on all rows: those above and below the blocks that move stay unless the read touches their list, and the others go one place up or down.
ghost use Rattle.std.specs.Prelude.{◌≡◌, ◌⊎◌, ℕ, ◌+◌, ◌-◌, ◌^◌, ◌<◌, ◌≤◌, length};
ghost use Rattle.engine.specs.Renewals.{Fits, Ready, Above, Sinks, Grown};
ghost use Rattle.engine.specs.Sweeps.{Lower, Leads, AllRenewed, Leaves, AllReady, RenewReady, RowsRenewed, TotalChanged, LongestMade};

use crate::lists::count_entries;
use crate::renewals::{RowRead, above_row, below_row, down_row, own_row, up_row};
use crate::rows::{Changes, row_length};

// The area, the lists and the changes go together through all of these. They are parameters: one struct of them with methods proves too, and was tried, but
// took 1.045 times the instructions of a read at N = 127 in the geometric mean.

// The rows above p and the block read, from the first one on.
fn above(
    area: &mut [u16],
    list: &[u16],
    scratch: &mut [u16],
    read: RowRead,
    lo: u16,
    changes: Changes,
) -> Changes
    requires { Ready read area.old list.now scratch.old changes (2 ^ 40) × Above read lo }
    ensures grown { Grown changes result (2 ^ 32) }
    ensures leads { Leads list.now read 0 read.n changes area.old (lo - 1) read.n result area.new }
{
    let mut sum = changes;
    for k in 1..lo {
        sum = above_row(area, list, scratch, read, k, lo, sum);
    }
    sum
}

// Those below both, from the last one on. A block read that is at one place of all cards that have it was above them all.
fn below(
    area: &mut [u16],
    list: &[u16],
    scratch: &mut [u16],
    read: RowRead,
    bottom: u16,
    changes: Changes,
) -> Changes
    requires { Ready read area.old list.now scratch.old changes (2 ^ 40) × Lower read bottom }
    ensures grown { Grown changes result (2 ^ 32) }
    ensures leads { (a : ℕ) → a ≤ bottom → Leads list.now read a read.n changes area.old a bottom result area.new }
{
    if list[0] == read.j {
        return changes;
    }
    let mut sum = changes;
    for above in (bottom..read.n).rev() {
        sum = below_row(area, list, scratch, read, above + 1, sum);
    }
    sum
}

// All rows from the bottom one up to the one after p: from the last one on, so that no list is overwritten before it has moved.
fn down(
    area: &mut [u16],
    list: &[u16],
    scratch: &mut [u16],
    read: RowRead,
    bottom: u16,
    changes: Changes,
) -> Changes
    requires { Ready read area.old list.now scratch.old changes (2 ^ 40) × (read.p ≤ bottom) × (bottom ≤ read.n) × ((read.j ≡ 0) ⊎ (bottom ≤ read.j)) }
    ensures grown { Grown changes result (2 ^ 32) }
    ensures leads { (a : ℕ) → a < read.p → Leads list.now read a bottom changes area.old a read.p result area.new }
{
    let mut sum = changes;
    for above in (read.p..bottom).rev() {
        sum = down_row(area, list, scratch, read, above + 1, sum);
    }
    sum
}

// All rows from that of the block read to the one before the bottom one, from the first one on.
fn up(
    area: &mut [u16],
    list: &[u16],
    scratch: &mut [u16],
    read: RowRead,
    bottom: u16,
    changes: Changes,
) -> Changes
    requires { Ready read area.old list.now scratch.old changes (2 ^ 40) × Sinks read bottom × (read.j ≤ bottom) }
    ensures grown { Grown changes result (2 ^ 32) }
    ensures leads { Leads list.now read (read.j - 1) bottom changes area.old (bottom - 1) bottom result area.new }
{
    let mut sum = changes;
    for k in read.j..bottom {
        sum = up_row(area, list, scratch, read, k, sum);
    }
    sum
}

// All rows where the block read was in no card and is put in: those from its place on go down.
fn renew_inserted(
    area: &mut [u16],
    list: &[u16],
    scratch: &mut [u16],
    read: RowRead,
    changes: Changes,
) -> Changes
    requires { AllReady read area.old list.now scratch.old changes × (read.j ≡ 0) × (read.p ≤ read.n) }
    ensures renewed { AllRenewed list.now read changes.lost result area.old area.new }
    ensures small { result.gained < 2 ^ 36 }
{
    let upper = above(area, list, scratch, read, read.p, changes);
    let all = down(area, list, scratch, read, read.n, upper);
    own_row(area, read, all)
}

// All rows where it goes up or stays: those from its new place to its old one go down.
fn renew_raised(
    area: &mut [u16],
    list: &[u16],
    scratch: &mut [u16],
    read: RowRead,
    changes: Changes,
) -> Changes
    requires { AllReady read area.old list.now scratch.old changes × (read.p ≤ read.j) × (read.j ≤ read.n) }
    ensures renewed { AllRenewed list.now read changes.lost result area.old area.new }
    ensures small { result.gained < 2 ^ 36 }
{
    let upper = above(area, list, scratch, read, read.p, changes);
    let both = below(area, list, scratch, read, read.j, upper);
    let all = down(area, list, scratch, read, read.j, both);
    own_row(area, read, all)
}

// All rows where it goes down or leaves: those from its old place to its new one, or the last one, go up.
fn renew_lowered(
    area: &mut [u16],
    list: &[u16],
    scratch: &mut [u16],
    read: RowRead,
    changes: Changes,
) -> Changes
    requires { AllReady read area.old list.now scratch.old changes × (0 < read.j) × (read.j < read.p) × (read.j ≤ read.n) }
    ensures renewed { AllRenewed list.now read changes.lost result area.old area.new }
    ensures small { result.gained < 2 ^ 36 }
{
    let bottom = read.p.min(read.n);
    let upper = above(area, list, scratch, read, read.j, changes);
    let both = below(area, list, scratch, read, bottom, upper);
    let all = up(area, list, scratch, read, bottom, both);
    own_row(area, read, all)
}

// All rows, by where the block read was.
fn renew_rows(
    area: &mut [u16],
    list: &[u16],
    scratch: &mut [u16],
    read: RowRead,
    changes: Changes,
) -> Changes
    requires { AllReady read area.old list.now scratch.old changes × (read.j ≤ read.n) × (read.j ≡ 0 → read.p ≤ read.n) }
    ensures renewed { AllRenewed list.now read changes.lost result area.old area.new }
    ensures small { result.gained < 2 ^ 36 }
{
    if read.j == 0 {
        renew_inserted(area, list, scratch, read, changes)
    } else if read.j < read.p {
        renew_lowered(area, list, scratch, read, changes)
    } else {
        renew_raised(area, list, scratch, read, changes)
    }
}

// The stretches that leave beside what moves: those of the block read, or of a block that is pushed out of the largest card, which has one at most.
fn leaving(area: &[u16], list: &[u16], read: RowRead) -> usize
    requires { Fits read (length area.now) × (read.j ≤ read.n) × (read.width ≤ length list.now) }
    ensures range { result ≤ read.width }
    ensures left { Leaves list.now area.now read result }
{
    if 0 < read.j {
        return count_entries(list, read.row(read.j).room) / 2;
    }
    if read.n < read.p {
        return 0;
    }
    let last = area[read.row(read.n).start];
    if last == 0 { 0 } else { 1 }
}

// All rows after a read at p of the block whose list is given, and which stood at place j of the largest card, or is put in there.
pub fn renew_all(
    stretches: &mut [u16],
    list: &[u16],
    scratch: &mut [u16],
    n: usize,
    p: usize,
    j: usize,
) -> Changes
    requires { RenewReady stretches.old list.now scratch.old n p j }
    ensures rows { RowsRenewed list.now stretches.old stretches.new n p j }
    ensures changes { TotalChanged list.now stretches.old n p j result }
    ensures longest { LongestMade list.now stretches.old n p j result }
    ensures small { result.gained < 2 ^ 36 }
{
    let read = RowRead {
        n: n as u16,
        width: row_length(n),
        // A priority past the last place is as good as the next one.
        p: p.min(n + 1) as u16,
        j: j as u16,
    };
    let changes = Changes {
        gained: 0,
        lost: leaving(stretches, list, read),
        longest: 0,
    };
    renew_rows(stretches, list, scratch, read, changes)
}
