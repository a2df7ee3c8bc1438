// Lists of stretches: for each its first size and its place, and zeros after the last. A place 0 says that a block is not there, as in the card rule, and a next
// size past the largest that there is no next stretch: the comparisons of a merge then need no case for it.
ghost use Rattle.std.specs.Prelude.{◌≡◌, [], ◌∷◌, ℕ, ◌+◌, ◌^◌, ◌<◌, ◌≤◌, length, get_or};
ghost use Rattle.engine.specs.Rows.{pairs};
ghost use Rattle.card.specs.Falling.{Falling};
ghost use Rattle.card.specs.Moves.{taken_out, put_in};
ghost use Rattle.engine.specs.Lists.{Holds, Begins, Ends, Over, CursorAt, GoesOn, GoesTo, ListedNext, MergedInto, next_size};

use terms::range::LARGEST_SIZE;

// Room for the longest list of a block and two zeros.
pub const LIST_ROOM: usize = LARGEST_SIZE + 3;

// A cursor into the stretches of a block over sizes up to n: the entries passed, the place now in force, and the first size of the next stretch, past every size where there is none.
#[derive(Clone, Copy, Debug, PartialEq, Eq)]
struct Cursor<'a> {
    list: &'a [u16],
    n: u16,
    passed: usize,
    place: u16,
    next: u16,
}

impl<'a> Cursor<'a> {
    // Before the first stretch.
    fn new(list: &'a [u16], n: u16) -> Cursor<'a>
        requires { n < 65535 }
        ensures over { Over list.now n result }
        ensures passed { (result.passed ≡ 0) × (0 < result.next) }
        ensures at { (R : ℕ → ℕ) → Falling R → Begins list.now R n → CursorAt R n 0 result }
    {
        Cursor {
            list,
            n,
            passed: 0,
            place: 0,
            next: next_size(list, 0, n),
        }
    }

    // At the first size of the next stretch.
    fn next_stretch(&mut self)
        requires { (self.old.n < 65535) × (self.old.passed + 2 < 2 ^ 64) }
        ensures over { Over self.old.list.now self.old.n self.new }
        ensures passed { self.new.passed ≡ self.old.passed + 2 }
        ensures at { GoesOn self.old.list.now self.old.n self.old self.new }
    {
        let i = self.passed;
        self.passed = i + 2;
        self.place = entry(self.list, i + 1);
        self.next = next_size(self.list, i + 2, self.n);
    }

    // At size s, from the size before.
    fn advance(&mut self, s: u16)
        requires { (self.old.n < 65535) × (self.old.passed + 2 < 2 ^ 64) }
        ensures over { Over self.old.list.now self.old.n self.new }
        ensures passed { self.new.passed ≤ self.old.passed + 2 }
        ensures at { GoesTo self.old.list.now self.old.n s self.old self.new }
    {
        if self.next == s {
            self.next_stretch();
        }
    }

    // At size t. The search ends with the slice, whatever that holds.
    fn at(list: &'a [u16], t: u16, n: u16) -> Cursor<'a>
        requires { n < 65535 }
        ensures over { Over list.now n result }
        ensures passed { result.passed ≤ length list.now + 1 }
        ensures at { (R : ℕ → ℕ) → Falling R → Begins list.now R n → t ≤ n → CursorAt R n t result }
    {
        let mut x = Cursor::new(list, n);
        // The turns are stretches, and no count of entries or sizes.
        while x.next <= t && x.passed < list.len() {
            x.next_stretch();
        }
        x
    }
}

// The place of another block once the block at place j has been taken out.
fn taken_out(j: u16, l: u16) -> u16
    ensures { result ≡ taken_out j l }
{
    if 0 < j && j < l { l - 1 } else { l }
}

// The place of a block of a card of size m once a block has been put in at p.
fn put_in(p: u16, m: u16, l: u16) -> u16
    ensures { result ≡ put_in p m l }
{
    if m < p || l < p {
        l
    } else if l < m {
        l + 1
    } else {
        0
    }
}

// The new place of a block at place l of a card of size m.
fn new_place(j: u16, p: u16, m: u16, l: u16) -> u16
    ensures { result ≡ put_in p m (taken_out j l) }
{
    put_in(p, m, taken_out(j, l))
}

// The entry at i, 0 past the end.
fn entry(list: &[u16], i: usize) -> u16
    ensures { result ≡ get_or list.now i 0 }
{
    list.get(i).copied().unwrap_or(0)
}

// The first size of the stretch at i, past every size where there is none.
#[tactic(auto, unfolding(crate::specs::Lists::next_size))]
fn next_size(list: &[u16], i: usize, n: u16) -> u16
    requires { n < 65535 }
    ensures { (0 < result) × (result ≡ next_size list.now n i) }
{
    match entry(list, i) {
        0 => n + 1,
        first => first,
    }
}

// The last size from s on before the next sizes x and y at which the new place r stands still too: a block at l that is pushed out of size s may stay in the next.
fn last_still(x: u16, y: u16, s: u16, l: u16, r: u16) -> u16
    ensures range { s ≤ result }
    ensures still { (s < x → result < x) × (s < y → result < y) }
    ensures pushed { r ≡ 0 → 0 < l → result ≡ s }
{
    let next = x.min(y);
    if s < next && (0 < r || l == 0) {
        next - 1
    } else {
        s
    }
}

// Writes the stretch that begins at s, where one does.
fn push(out: &mut [u16], q: usize, s: u16, r: u16, last: u16) -> usize
    requires { q ≤ length out.old }
    ensures range { (q ≤ result) × (result ≤ length out.old) × ((y : ℕ) → result ≤ y → get_or out.new y 0 ≡ get_or out.old y 0) }
    ensures written { ListedNext out.old out.new q result s r last }
{
    if r == 0 || r == last || out.len() - q < 2 {
        return q;
    }
    out[q] = s;
    out[q + 1] = r;
    q + 2
}

// Zeros from q on. What follows the first zero is zero already.
pub fn fill(out: &mut [u16], q: usize)
    ensures { ((x : ℕ) → x < q → get_or out.new x 0 ≡ get_or out.old x 0) × (Ends out.old q → (x : ℕ) → q ≤ x → get_or out.new x 0 ≡ 0) }
{
    for x in q..out.len() {
        if out[x] == 0 {
            return;
        }
        out[x] = 0;
    }
}

// The stretches of another block after a read at p, from the list of the block read and its own; answers how many entries they are. Before the other's first size there are none.
pub fn merge(list: &[u16], other: &[u16], out: &mut [u16], p: u16, n: u16) -> usize
    requires { (0 < p) × (n < 65535) }
    ensures range { result ≤ length out.old }
    ensures merged { MergedInto list.now other.now out.old out.new p n result }
{
    let mut y = Cursor::new(other, n);
    let mut t = y.next - 1;
    let mut x = Cursor::at(list, t, n);
    let mut q: usize = 0;
    let mut last: u16 = 0;
    // The turns are the sizes at which a list begins a stretch, and no count.
    while t < n {
        let s = t + 1;
        x.advance(s);
        y.advance(s);
        let r = new_place(x.place, p, s, y.place);
        q = push(out, q, s, r, last);
        last = r;
        t = last_still(x.next, y.next, s, y.place, r);
    }
    fill(out, q);
    q
}

// Copies a list, and a zero after it; answers how many entries it has.
pub fn copy_list(row: &[u16], out: &mut [u16]) -> usize
    requires { length row.now < length out.old }
    ensures range { result ≤ length row.now }
    ensures begins { (R : ℕ → ℕ) (n : ℕ) → Holds row.now R n → (result ≡ length (pairs R n)) × Begins out.new R n }
    ensures beyond { (y : ℕ) → result < y → get_or out.new y 0 ≡ get_or out.old y 0 }
{
    for (x, &v) in row.iter().enumerate() {
        out[x] = v;
        if v == 0 {
            return x;
        }
    }
    out[row.len()] = 0;
    row.len()
}

// A list of one stretch.
pub fn write_pair(out: &mut [u16], first: u16, place: u16)
    requires { 2 ≤ length out.old }
    ensures { (R : ℕ → ℕ) (n : ℕ) → pairs R n ≡ first ∷ place ∷ [] → Ends out.old 0 → Holds out.new R n }
{
    out[0] = first;
    out[1] = place;
    fill(out, 2);
}

// How many entries a list has that has at most so many.
pub fn count_entries(list: &[u16], most: usize) -> usize
    requires { most ≤ length list.now }
    ensures range { result ≤ most }
    ensures counted { (R : ℕ → ℕ) (n : ℕ) → length (pairs R n) ≤ most → Begins list.now R n → result ≡ length (pairs R n) }
{
    list[..most].iter().position(|&v| v == 0).unwrap_or(most)
}
