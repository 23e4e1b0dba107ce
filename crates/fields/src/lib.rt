// Numbers and block names at places of a byte slice, big-endian.
// A caller shows that the place lies in the slice; all else is exact.
#![tactic(auto)]

ghost use Rattle.std.specs.Prelude.{◌≡◌, ◌+◌, ◌^◌, ◌≤◌, ◌<◌, length, eqb, nat_eq};
ghost use Rattle.std.proofs.Common.{rules};
ghost use Rattle.std.specs.Cmp.Rules.{comparing};
ghost use Rattle.std.specs.Ordering.{nat_cmp, on, as_partial_cmp};
ghost use Rattle.fields.specs.Places.{number, put as written};
ghost use Rattle.fields.specs.Names.{name_of};

use std::cmp::Ordering;

// A block's name, 32 bytes as four words, the first word the highest.
#[derive(Clone, Copy)]
pub struct Name {
    pub first: u64,
    pub second: u64,
    pub third: u64,
    pub fourth: u64,
}

impl Name {
    // The name of 32 zero bytes.
    pub fn zero() -> Name
        ensures { name_of result ≡ 0 }
    {
        Name {
            first: 0,
            second: 0,
            third: 0,
            fourth: 0,
        }
    }

    // Whether all 32 bytes are zero.
    pub fn is_zero(self) -> bool
        ensures { result ≡ eqb (name_of self) 0 }
    {
        (self.first | self.second | self.third | self.fourth) == 0
    }
}

// Names are the same where their bytes are, read as one number.
impl PartialEq for Name {
    ghost eq = { on name_of nat_eq };

    ghost laws = { Prim.search (comparing, rules) };

    fn eq(&self, other: &Name) -> bool {
        (self.first == other.first)
            & (self.second == other.second)
            & (self.third == other.third)
            & (self.fourth == other.fourth)
    }
}

impl Eq for Name {
    ghost laws = { Prim.search (comparing, rules) };
}

// The order of two names, by the first words that differ.
fn ordered(name: Name, other: Name) -> Ordering
    ensures { result ≡ nat_cmp (name_of name) (name_of other) }
{
    let words = (name.first, name.second, name.third, name.fourth);
    words.cmp(&(other.first, other.second, other.third, other.fourth))
}

// Names are ordered by their bytes, read as one number.
impl PartialOrd for Name {
    ghost partial_cmp = { as_partial_cmp (on name_of nat_cmp) };

    ghost laws = { Prim.search (comparing, rules) };

    fn partial_cmp(&self, other: &Name) -> Option<Ordering> {
        Some(self.cmp(other))
    }
}

impl Ord for Name {
    ghost cmp = { on name_of nat_cmp };

    ghost total = { Prim.search (comparing, rules) };

    ghost matches_partial_cmp = { Prim.search (comparing, rules) };

    ghost matches_eq = { Prim.search (comparing, rules) };

    fn cmp(&self, other: &Name) -> Ordering {
        ordered(*self, *other)
    }
}

// The number of the bytes of a place, byte by byte.
fn by_bytes(s: &[u8], at: usize, width: usize) -> u64
    requires { (width ≤ 8) × (at + width ≤ length s.now) }
    ensures { (result ≡ number s.now at width) × (result < 256 ^ width) }
{
    let mut value: u64 = 0;
    for k in 0..width {
        value = value * 256 + u64::from(s[at + k]);
    }
    value
}

// The number of the bytes of a place. Eight are read as two fours, of which the compiler makes one load.
pub fn get(s: &[u8], at: usize, width: usize) -> u64
    requires { (width ≤ 8) × (at + width ≤ length s.now) }
    ensures { (result ≡ number s.now at width) × (result < 256 ^ width) }
{
    if width == 8 {
        let high = by_bytes(s, at, 4);
        let low = by_bytes(s, at + 4, 4);
        return high * 4_294_967_296 + low;
    }
    by_bytes(s, at, width)
}

// Writes the low bytes of a value to a place.
pub fn put(s: &mut [u8], at: usize, width: usize, value: u64)
    requires { at + width ≤ length s.old }
    ensures { s.new ≡ written s.old at width value }
{
    let mut left = value;
    for k in (0..width).rev() {
        s[at + k] = (left % 256) as u8;
        left /= 256;
    }
}

// The name at a place.
pub fn get_name(s: &[u8], at: usize) -> Name
    requires { at + 32 ≤ length s.now }
    ensures { (name_of result ≡ number s.now at 32) × (name_of result < 256 ^ 32) }
{
    let first = get(s, at, 8);
    let second = get(s, at + 8, 8);
    let third = get(s, at + 16, 8);
    let fourth = get(s, at + 24, 8);
    Name {
        first,
        second,
        third,
        fourth,
    }
}

// Writes a name to a place, the last word first.
pub fn put_name(s: &mut [u8], at: usize, name: Name)
    requires { at + 32 ≤ length s.old }
    ensures { s.new ≡ written s.old at 32 (name_of name) }
{
    put(s, at + 24, 8, name.fourth);
    put(s, at + 16, 8, name.third);
    put(s, at + 8, 8, name.second);
    put(s, at, 8, name.first);
}

// Whether the bytes of a place are all zero.
pub fn all_zero(s: &[u8], at: usize, width: usize) -> bool
    requires { at + width ≤ length s.now }
    ensures { result ≡ eqb (number s.now at width) 0 }
{
    let mut any: u8 = 0;
    for k in 0..width {
        any |= s[at + k];
    }
    any == 0
}

// Writes zeros to a place.
pub fn clear(s: &mut [u8], at: usize, width: usize)
    requires { at + width ≤ length s.old }
    ensures { s.new ≡ written s.old at width 0 }
{
    for k in (0..width).rev() {
        s[at + k] = 0;
    }
}

// Whether the bytes of two places are the same.
pub fn same(a: &[u8], i: usize, b: &[u8], j: usize, width: usize) -> bool
    requires { (i + width ≤ length a.now) × (j + width ≤ length b.now) }
    ensures { result ≡ eqb (number a.now i width) (number b.now j width) }
{
    let mut any: u8 = 0;
    for k in 0..width {
        any |= a[i + k] ^ b[j + k];
    }
    any == 0
}
