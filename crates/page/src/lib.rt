// Text is put on a page, which is written when it is full or an answer is whole.
#![tactic(auto)]

ghost use Rattle.std.specs.Prelude.{◌+◌, ◌/◌, ◌%◌, ◌<◌, min, max, ◌≡◌, [], ◌∷◌, set, replicate, ⊤};
ghost use Rattle.io.specs.Digits.{hex_digit_ascii};
ghost use Rattle.page.specs.Page.{place, typed, in_hex, Spelt};

use std::alloc::AllocError;

// The bytes in use stand first. Where they go when they are written is lent with the page.
#[derive(Drop)]
pub struct Page<'p, P: Print> {
    pub rt: &'p P,
    pub text: [u8; 4096],
    pub used: usize,
}

impl<'p, P: Print> Copy for Page<'p, P> {}

impl<'p, P: Print> Clone for Page<'p, P> {
    ghost is_clone = { λ own other. (other.text ≡ own.text) × (other.used ≡ own.used) };

    ghost is_infallible = { λ _. ⊤ };

    fn clone(&self) -> Result<Self, AllocError> {
        Ok(*self)
    }
}

impl<'p, P: Print> Page<'p, P> {
    // An empty page.
    pub fn new(rt: &'p P) -> Page<'p, P>
        ensures { (result.used ≡ 0) × (result.text ≡ replicate 4096 0) }
    {
        let text = [0; 4096];
        Page { rt, text, used: 0 }
    }

    // Writes the first bytes of the page. What cannot be written is lost.
    fn write_out(&self, end: usize) {
        if end <= 4096 {
            let _ = self.rt.write_all(&self.text[..end]);
        }
    }

    // Writes what the page has, and ends it.
    pub fn finish(self) {
        self.write_out(self.used);
    }

    // A byte behind the others, or first on the next page where this one is full.
    pub fn put(&mut self, byte: u8)
        ensures { (self.new.text ≡ set self.old.text (place self.old.used) byte) × (self.new.used ≡ place self.old.used + 1) }
    {
        if self.used < 4096 {
            self.text[self.used] = byte;
            self.used += 1;
            return;
        }
        self.write_out(4096);
        self.text[0] = byte;
        self.used = 1;
    }

    // Words, as they stand.
    pub fn say(&mut self, words: &[u8])
        ensures { (self.new.text, self.new.used) ≡ typed self.old.text self.old.used words.now }
    {
        for &byte in words {
            self.put(byte);
        }
    }

    // A number in decimal.
    pub fn decimal(&mut self, number: u64)
        ensures { Spelt 10 1 number self.old.text self.old.used self.new.text self.new.used }
    {
        let mut digits = [0u8; 20];
        let n = io::decimal(number, &mut digits);
        self.say(&digits[..n]);
    }

    // A number in hex, of at least so many digits.
    pub fn hex(&mut self, number: u64, width: usize)
        ensures { Spelt 16 (min (max width 1) 16) number self.old.text self.old.used self.new.text self.new.used }
    {
        let mut digits = [0u8; 16];
        let n = io::hex(number, width, &mut digits);
        self.say(&digits[..n]);
    }

    // A byte in hex.
    fn pair(&mut self, byte: u8)
        ensures { (self.new.text, self.new.used) ≡ typed self.old.text self.old.used (hex_digit_ascii (byte / 16) ∷ (hex_digit_ascii (byte % 16) ∷ [])) }
    {
        self.put(digit(byte / 16));
        self.put(digit(byte % 16));
    }

    // Bytes in hex, two digits each; no bytes are a dash.
    pub fn bytes(&mut self, shown: &[u8])
        ensures { (self.new.text, self.new.used) ≡ typed self.old.text self.old.used (in_hex shown.now) }
    {
        if shown.len() == 0 {
            self.put(b'-');
            return;
        }
        for &byte in shown {
            self.pair(byte);
        }
    }
}

// The hex digit of four bits.
fn digit(bits: u8) -> u8
    requires { bits < 16 }
    ensures { result ≡ hex_digit_ascii bits }
{
    if bits < 10 { 48 + bits } else { 87 + bits }
}
