// Runs of bytes, and the words of a line.
#![tactic(auto)]

ghost use Rattle.std.specs.Prelude.{Bool, List, ◌≡◌, ℕ, ◌<◌, ◌≤◌, length, drop};
ghost use Rattle.text.specs.Words.{is_space, in_word, is_dash};
ghost use Rattle.text.specs.Places.{Runs, WordOf, Lists, placed};

// A part of a line, from start up to end: empty where no word was found.
#[derive(Clone, Copy)]
pub struct Span {
    pub start: usize,
    pub end: usize,
}

// Whether a byte parts words.
fn is_space(b: u8) -> bool
    ensures { result ≡ is_space b }
{
    (b == b' ') | (b == b'\t') | (b == b'\r')
}

// Whether a byte goes on with a word, which ends at a space or at a comment.
fn in_word(b: u8) -> bool
    ensures { result ≡ in_word b }
{
    !(is_space(b) | (b == b'#'))
}

// Where a run of bytes that pass ends, from a place on.
pub fn run<F: Fn(u8) -> bool>(s: &[u8], from: usize, passes: F) -> usize
    requires place { from ≤ length s.now }
    requires callable { F.IsAlwaysCallable passes }
    ensures bound { (from ≤ result) × (result ≤ length s.now) }
    ensures runs { (p : ℕ → Bool) → ((b : ℕ) (r : Bool) → b < 256 → F.post passes b r → r ≡ p b) → Runs p s.now from result }
{
    for i in from..s.len() {
        if !passes(s[i]) {
            return i;
        }
    }
    s.len()
}

// The next word from a place on.
pub fn word(s: &[u8], from: usize) -> Span
    requires { from ≤ length s.now }
    ensures { WordOf s.now (drop from s.now) result }
{
    let start = run(s, from, |b| is_space(b));
    let end = run(s, start, |b| in_word(b));
    Span { start, end }
}

// Whether a word is '-', which says that there is nothing.
pub fn is_dash(word: &[u8]) -> bool
    ensures { result ≡ is_dash word.now }
{
    word == b"-".as_slice()
}

// Which word of a list this is, counted from 1; 0 if it is none.
pub fn which(list: &[u8], it: &[u8]) -> usize
    ensures { (ws : List (List ℕ)) → Lists ws list.now → result ≡ placed 1 ws it.now }
{
    let mut at: usize = 0;
    let mut k: usize = 0;
    // A turn goes on by a word, whose length no range knows.
    loop {
        let next = word(list, at);
        let start = next.start;
        let end = next.end;
        if start == end {
            return 0;
        }
        if &list[start..end] == it {
            return k + 1;
        }
        at = end;
        k += 1;
    }
}
