// One read, for all sizes at once.
ghost use Rattle.std.specs.Prelude.{◌≡◌, true, false, ℕ, ◌+◌, ◌^◌, ◌<◌, ◌≤◌, max, get_or};
ghost use Rattle.engine.specs.OneRead.{Found, CanFind, CanMove, CanRead, HeldMore, TalliedMore, SummedMore, ChangesSummed};

use crate::lists::LIST_ROOM;
use crate::rows::{Changes, load};
use crate::starts::tally_list;
use crate::sweeps::renew_all;
use card::places::{at_least_one, move_from, place_of};

// The total of stretches, its peak, and the peak of one block.
#[derive(Clone, Copy, Debug, Default, PartialEq, Eq)]
pub struct Sums {
    pub now: usize,
    pub most: usize,
    pub one: usize,
}

// The sums after the changes of one read.
fn summed(sums: Sums, changes: Changes) -> Sums
    requires { (changes.lost ≤ sums.now + changes.gained) × (sums.now + changes.gained < 2 ^ 64) }
    ensures { ChangesSummed sums changes result }
{
    let now = sums.now + changes.gained - changes.lost;
    let most = sums.most.max(now);
    let one = sums.one.max(changes.longest);
    Sums { now, most, one }
}

// A block that is in no card and is put in none.
fn is_bypass(n: usize, p: usize, j: usize) -> bool
    ensures { (result ≡ true → (j ≡ 0) × (n < p)) × (result ≡ false → j ≡ 0 → p ≤ n) }
{
    j == 0 && n < p
}

// The place of a block in the largest card, 0 where it is in no card, as in the card rule; its stretches come into the list.
pub fn find(blocks: &[u64], stretches: &[u16], n: usize, key: u64, list: &mut [u16]) -> usize
    requires { CanFind n key blocks.now stretches.now list.old }
    ensures { Found n key blocks.now stretches.now result list.new }
{
    let j = place_of(blocks, key);
    load(stretches, n, j, list);
    j
}

// The block that was found at place j, with its stretches in the list, goes to place p of every card that has such a place, and out of the others.
pub fn move_block(
    blocks: &mut [u64],
    stretches: &mut [u16],
    list: &[u16],
    scratch: &mut [u16],
    n: usize,
    key: u64,
    p: usize,
    j: usize,
    sums: Sums,
) -> Sums
    requires { CanMove n key p j blocks.old stretches.old list.now scratch.old sums }
    ensures held { HeldMore n key p blocks.old stretches.old blocks.new stretches.new }
    ensures summed { SummedMore n key p blocks.old stretches.old sums result }
{
    // A read whose block is in no card and is put in none moves nothing.
    if is_bypass(n, p, j) {
        return sums;
    }
    let changes = renew_all(stretches, list, scratch, n, p, j);
    move_from(blocks, key, j, p);
    summed(sums, changes)
}

// The areas and the sums after one read. What the scratch holds does not matter, neither before nor after.
pub fn read(
    blocks: &mut [u64],
    stretches: &mut [u16],
    counts: &mut [u64],
    scratch: &mut [u16],
    n: usize,
    key: u64,
    priority: usize,
    sums: Sums,
) -> Sums
    requires { CanRead n key blocks.old stretches.old counts.old scratch.old sums }
    ensures held { HeldMore n key (max 1 priority) blocks.old stretches.old blocks.new stretches.new }
    ensures tallied { TalliedMore n key (max 1 priority) blocks.old stretches.old counts.old counts.new }
    ensures summed { SummedMore n key (max 1 priority) blocks.old stretches.old sums result }
    ensures small { (x : ℕ) → get_or counts.new x 0 ≤ get_or counts.old x 0 + 1 }
{
    let p = at_least_one(priority);
    let mut list = [0u16; LIST_ROOM];
    let j = find(blocks, stretches, n, key, &mut list);
    // The list says all that the tallies ask; the compiled code is shorter with them last.
    let after = move_block(blocks, stretches, &list, scratch, n, key, p, j, sums);
    tally_list(counts, &list, n, p);
    after
}
