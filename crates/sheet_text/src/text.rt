// A lent text that bytes are put into, one after the other. What does not fit is left out, and counted all the same.
ghost use Rattle.std.specs.Prelude.{◌≡◌, [], ◌+◌, ◌≤◌, ◌∷◌, length};
ghost use Rattle.sheet_text.specs.Decimal.{decimal};
ghost use Rattle.sheet_text.specs.Sheet.{spaced, refused_line};
ghost use Rattle.sheet_text.specs.Writing.{CanCount, Takes};
ghost use Rattle.terms.specs.Refusals.{number_of};

use terms::Fault;

// The lent bytes, and how many were put in so far. No fmt::Write: a sheet cannot fail, and no promise says that a write! answers Ok.
#[derive(Drop)]
pub struct Text<'a> {
    bytes: &'a mut [u8],
    length: usize,
}

impl<'a> Text<'a> {
    pub fn new(bytes: &'a mut [u8]) -> Self
        ensures same { result.bytes.ghost_name ≡ bytes.entry.ghost_name }
        ensures bytes { result.bytes.now ≡ bytes.old }
        ensures empty { result.length ≡ 0 }
    {
        Text { bytes, length: 0 }
    }

    pub fn length(&self) -> usize
        ensures { result ≡ self.now.length }
    {
        self.length
    }

    #[tactic(auto, unfolding(crate::specs::Writing::put_from))]
    fn put(&mut self, byte: u8)
        requires { CanCount self.old 1 }
        ensures { Takes self.old self.new (byte ∷ []) }
    {
        if self.length < self.bytes.len() {
            self.bytes[self.length] = byte;
        }
        self.length += 1;
    }

    #[tactic(auto, using(crate::proofs::Puts::takes_none))]
    pub fn put_words(&mut self, words: &[u8])
        requires { CanCount self.old (length words.now) }
        ensures { Takes self.old self.new words.now }
    {
        for byte in words {
            self.put(*byte);
        }
    }

    // A number, its first digit first, as its spelling is defined. The crate itoa is no plainer: another spelling, and a law that both are one.
    pub fn put_number(&mut self, n: u64)
        requires { CanCount self.old 20 }
        ensures takes { Takes self.old self.new (decimal n) }
        ensures short { self.new.length ≤ self.old.length + 20 }
    {
        if 10 <= n {
            self.put_number(n / 10);
        }
        self.put(b'0' + (n % 10) as u8);
    }

    // A number after a single space.
    pub fn put_spaced(&mut self, n: u64)
        requires { CanCount self.old 21 }
        ensures takes { Takes self.old self.new (spaced n) }
        ensures short { self.new.length ≤ self.old.length + 21 }
    {
        self.put(b' ');
        self.put_number(n);
    }

    // The one line of a refusal.
    pub fn put_refused(&mut self, fault: Fault)
        requires { CanCount self.old 128 }
        ensures takes { Takes self.old self.new (refused_line (number_of fault.refusal) fault.place) }
        ensures short { self.new.length ≤ self.old.length + 128 }
    {
        self.put_words(b"refused");
        self.put_spaced(u64::from(u32::from(fault.refusal)));
        self.put_words(b" at");
        self.put_spaced(fault.place as u64);
        self.put_words(b"\n");
    }
}
