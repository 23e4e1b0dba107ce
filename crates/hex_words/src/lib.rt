// What a word says in hex: bytes, or a name.
#![tactic(auto)]

ghost use Rattle.std.specs.Prelude.{◌≡◌, ◌+◌, ◌≤◌, ◌-◌, ◌/◌, length};
ghost use Rattle.std.specs.List.{list_all};
ghost use Rattle.std.specs.Char.{is_ascii_hexdigit};
ghost use Rattle.outgoing.specs.Wrote.{wrote};
ghost use Rattle.text.specs.Words.{value, pairs, is_bytes, name};
ghost use Rattle.hex_words.specs.Meaning.{named_of};

use fields::Name;

// Whether every byte is a hex digit.
fn all_hex(word: &[u8]) -> bool
    ensures { result ≡ list_all is_ascii_hexdigit word.now }
{
    word.iter().all(|b| b.is_ascii_hexdigit())
}

// The number of up to 16 hex digits.
fn hex_number(word: &[u8]) -> u64
    requires { length word.now ≤ 16 }
    ensures { result ≡ value 16 0 word.now }
{
    let mut value: u64 = 0;
    for &b in word {
        value = value * 16 + u64::from(numbers::digit(b));
    }
    value
}

// 1 to 64 hex digits as a name, 16 to each word of it.
pub fn name(word: &[u8]) -> Option<Name>
    ensures { named_of result ≡ name word.now }
{
    let end = word.len();
    if end == 0 {
        return None;
    }
    if 64 < end {
        return None;
    }
    if !all_hex(word) {
        return None;
    }
    let fourth = end.saturating_sub(16);
    let third = fourth.saturating_sub(16);
    let second = third.saturating_sub(16);
    Some(Name {
        first: hex_number(&word[..second]),
        second: hex_number(&word[second..third]),
        third: hex_number(&word[third..fourth]),
        fourth: hex_number(&word[fourth..]),
    })
}

// Whether a word is bytes in hex: pairs of digits, or '-' for none.
pub fn is_bytes(word: &[u8]) -> bool
    ensures { result ≡ is_bytes word.now }
{
    if text::is_dash(word) {
        return true;
    }
    if word.len() % 2 != 0 {
        return false;
    }
    all_hex(word)
}

// Writes the bytes that pairs of hex digits say from a place on; '-' is no pair.
pub fn write_bytes(word: &[u8], bytes: &mut [u8], at: usize)
    requires { at + length word.now / 2 ≤ length bytes.old }
    ensures { bytes.new ≡ wrote bytes.old at (pairs word.now) }
{
    for i in 0..word.len() / 2 {
        let high = numbers::digit(word[2 * i]);
        let low = numbers::digit(word[2 * i + 1]);
        bytes[at + i] = high * 16 + low;
    }
}
