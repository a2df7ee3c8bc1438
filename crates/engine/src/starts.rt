// Where the parts of a read's outcomes start over rising sizes, from the list of its block.
ghost use Rattle.std.specs.Prelude.{ℕ, ◌+◌, ◌*◌, ◌^◌, ◌<◌, ◌≤◌, length, get_or};
ghost use Rattle.card.specs.Falling.{Falling};
ghost use Rattle.counts.specs.Columns.{counts_length};
ghost use Rattle.counts.specs.TallySteps.{PresentFrom, ReadTallied};
ghost use Rattle.engine.specs.Lists.{Holds};
ghost use Rattle.engine.specs.Starts.{Passed};

use counts::tallies::tally;

// The number of the first stretch, from one on, whose place is at most `most`; the zeros after the last stretch stop the search.
fn first_within(list: &[u16], from: usize, most: usize) -> usize
    ensures place { get_or list.now (2 * result + 1) 0 ≤ most }
    ensures passed { (J : ℕ → ℕ) (n : ℕ) → Falling J → Holds list.now J n → Passed J n most from → Passed J n most result }
{
    for i in from..list.len() / 2 {
        if list[2 * i + 1] as usize <= most {
            return i;
        }
    }
    list.len() / 2
}

// The first size of a stretch; past every size where there is none.
fn first_size(list: &[u16], i: usize, n: usize) -> usize
    requires { n < 2 ^ 63 }
    ensures some { 1 ≤ result }
    ensures begins { (J : ℕ → ℕ) (most : ℕ) → Falling J → Holds list.now J n → get_or list.now (2 * i + 1) 0 ≤ most → Passed J n most i → PresentFrom J n most result }
{
    if list.len() / 2 <= i {
        return n + 1;
    }
    let first = list[2 * i] as usize;
    if first == 0 {
        return n + 1;
    }
    first
}

// One read with priority p of the block whose stretches are in the list.
pub fn tally_list(counts: &mut [u64], list: &[u16], n: usize, p: usize)
    requires { (1 ≤ p) × (counts_length n ≤ length counts.old) × ((x : ℕ) → get_or counts.old x 0 < 2 ^ 63) }
    ensures tallied { (J : ℕ → ℕ) → Falling J → Holds list.now J n → ReadTallied counts.old counts.new J n p }
    ensures small { (x : ℕ) → get_or counts.new x 0 ≤ get_or counts.old x 0 + 1 }
{
    let first = first_size(list, 0, n);
    let same = first_within(list, 0, p);
    let reached = first_size(list, same, n);
    let down = first_within(list, same, p - 1);
    let above = first_size(list, down, n);
    tally(counts, n, p, first, reached, above);
}
