// What a word says as a number or as a mask, and what a digit says.
#![tactic(auto)]

ghost use Rattle.std.specs.Prelude.{◌≡◌, ◌<◌};
ghost use Rattle.text.specs.Words.{is_decimal, digit, decimal, mask};
ghost use Rattle.numbers.specs.Meaning.{number_of};

// Whether a byte is a decimal digit.
pub fn is_decimal(b: u8) -> bool
    ensures { result ≡ is_decimal b }
{
    b.is_ascii_digit()
}

// What a digit says, decimal or hex; 0 if it is none.
pub fn digit(b: u8) -> u8
    ensures { (result ≡ digit b) × (result < 16) }
{
    match b {
        b'0'..=b'9' => b - b'0',
        b'a'..=b'f' => b - b'a' + 10,
        b'A'..=b'F' => b - b'A' + 10,
        _ => 0,
    }
}

// A decimal number up to the largest.
pub fn decimal(word: &[u8], most: u64) -> Option<u64>
    ensures { number_of result ≡ decimal most word.now }
{
    if word.len() == 0 {
        return None;
    }
    let mut value: u64 = 0;
    for &b in word {
        if !is_decimal(b) {
            return None;
        }
        let d = u64::from(digit(b));
        if most / 10 < value {
            return None;
        }
        if most - value * 10 < d {
            return None;
        }
        value = value * 10 + d;
    }
    Some(value)
}

// Station numbers joined by '+', as a mask; '-' is nobody.
pub fn mask(word: &[u8]) -> Option<u64>
    ensures { number_of result ≡ mask word.now }
{
    if text::is_dash(word) {
        return Some(0);
    }
    let mut joined: u64 = 0;
    let mut from: usize = 0;
    // A turn goes on by a station's digits, so nothing is counted.
    loop {
        let end = text::run(word, from, |b| b != b'+');
        let station = decimal(&word[from..end], 15)?;
        joined |= settings::only(station);
        if end == word.len() {
            return Some(joined);
        }
        from = end + 1;
    }
}
