// The counts area: for each size a tally in each column until the end, and then a count.
ghost use Rattle.std.specs.Prelude.{◌≡◌, ◌+◌, ◌≤◌, ℕ, length, get_or};
ghost use Rattle.std.proofs.lemmas.List.Edits.{sets};
ghost use Rattle.card.specs.Falling.{Falling};
ghost use Rattle.counts.specs.Columns.{columns, row, table};
ghost use Rattle.counts.specs.Tallies.{SumsGive, Tallies};
ghost use Rattle.counts.specs.TallySteps.{BumpReady, ReadReady, AddReady, FinishReady, column_of, bumped, begun, GrownBy, PartsBegin, ReadTallied, Added};

use std::array::from_fn;

// The counts of a size, one for each outcome.
pub const COLUMNS: usize = 6;

// The parts that a read's outcomes come in over rising sizes, in the order of the columns of their tallies. Miss bypasses come before any part;
// hits that go up come after inserts or after hit bypasses.
#[derive(Clone, Copy)]
enum Part {
    UpAfterInsert,
    Same,
    Down,
    HitBypass,
    Insert,
    UpAfterBypass,
}

// One more in the tally of a part at a size; a size past the largest has no tallies.
// The area and its size stay plain parameters: in a struct, each step would also have to promise that both stay the same.
#[tactic(auto, unfolding(crate::specs::TallySteps::bumped))]
fn bump(counts: &mut [u64], n: usize, part: Part, m: usize)
    requires { BumpReady counts.old n m }
    ensures exact { counts.new ≡ bumped counts.old n (column_of part) m }
    ensures small { GrownBy 1 counts.old counts.new }
{
    if m <= n {
        counts[COLUMNS * (m - 1) + part as usize] += 1;
    }
}

// Up to where both the block and room at its priority are there: sizes below the priority bypass, those with room but no block insert.
#[tactic(auto, unfolding(crate::specs::TallySteps::begun))]
fn begin(counts: &mut [u64], n: usize, first: usize, p: usize)
    requires { ReadReady counts.old n first p }
    ensures exact { counts.new ≡ begun counts.old n first p }
    ensures small { GrownBy 2 counts.old counts.new }
{
    if p < first {
        bump(counts, n, Part::Insert, p);
        bump(counts, n, Part::UpAfterInsert, first);
    } else {
        bump(counts, n, Part::HitBypass, first);
        bump(counts, n, Part::UpAfterBypass, p);
    }
}

// One read with priority p of a block that is present from a size on, at a place up to p from another, and above p from a third. Over rising sizes
// its outcomes come in one order, so that a tally counts only where its part of that order begins.
pub fn tally(counts: &mut [u64], n: usize, p: usize, first: usize, reached: usize, above: usize)
    requires { ReadReady counts.old n first p }
    ensures tallied { (J : ℕ → ℕ) → Falling J → PartsBegin J n p first reached above → ReadTallied counts.old counts.new J n p }
    ensures small { GrownBy 1 counts.old counts.new }
{
    begin(counts, n, first, p);
    bump(counts, n, Part::Same, reached.max(p));
    bump(counts, n, Part::Down, above.max(p));
}

// The sums of the columns over the sizes so far, with the tallies of one size more.
fn add_size(sums: &mut [u64; COLUMNS], tallies: &[u64])
    requires { AddReady sums.old tallies.now }
    ensures { Added sums.old sums.new tallies.now }
{
    *sums = from_fn(|k| sums[k] + tallies[k]);
}

// The counts that the sums of a size give.
fn counts_of(sums: [u64; COLUMNS], reads: u64) -> [u64; COLUMNS]
    requires { (c : ℕ → ℕ) × SumsGive (λ k. get_or sums k 0) reads c }
    ensures { (c : ℕ → ℕ) → SumsGive (λ k. get_or sums k 0) reads c → result ≡ row columns c }
{
    let [
        up_after_insert,
        same,
        down,
        hit_bypass,
        insert,
        up_after_bypass,
    ] = sums;
    [
        up_after_insert + up_after_bypass - same,
        same - down,
        down,
        hit_bypass - up_after_bypass,
        insert - up_after_insert,
        reads - insert - hit_bypass,
    ]
}

// Puts the counts of a size over its tallies, which begin at an index.
#[tactic(auto, using(crate::proofs::tallies::Turns::written))]
fn write_size(counts: &mut [u64], at: usize, size: [u64; COLUMNS])
    requires { at + columns ≤ length counts.old }
    ensures { counts.new ≡ sets counts.old at size }
{
    let [up, same, down, hit_bypass, insert, miss_bypass] = size;
    counts[at] = up;
    counts[at + 1] = same;
    counts[at + 2] = down;
    counts[at + 3] = hit_bypass;
    counts[at + 4] = insert;
    counts[at + 5] = miss_bypass;
}

// Turns the tallies into counts in place, size by size.
pub fn finish(counts: &mut [u64], n: usize, reads: u64)
    requires { FinishReady counts.old n reads }
    ensures { (c : ℕ → ℕ → ℕ) → Tallies n reads c counts.old → counts.new ≡ table n c }
{
    let mut sums = [0u64; COLUMNS];
    for m in 0..n {
        let at = COLUMNS * m;
        add_size(&mut sums, &counts[at..at + COLUMNS]);
        write_size(counts, at, counts_of(sums, reads));
    }
}
