// The search of a table by a block: of records of one size, each of which begins with a view, a height and a name.
// A caller shows that the table lies in the slice; all else is exact.
#![tactic(auto)]

ghost use Rattle.std.specs.Prelude.{◌≡◌, ◌+◌, ◌-◌, ◌*◌, ◌≤◌, ◌<◌, length, eqb};
ghost use Rattle.fields.specs.Places.{number};
ghost use Rattle.fields.specs.Names.{name_of};
ghost use Rattle.lookup.specs.Search.{seek, turn, mark_of, has_mark, has_block, first_of};

use fields::Name;

// Where a record's mark is: the four bytes of its height and the first four of its name.
const MARK: usize = 4;

// Where the words of a record's name are.
const FIRST: usize = 8;

const SECOND: usize = 16;

const THIRD: usize = 24;

const FOURTH: usize = 32;

// How many records are looked at in one turn.
const TURN: usize = 16;

// The eight bytes of a place as one word, the first byte the lowest: on the processors at hand one load.
fn word(s: &[u8], at: usize) -> u64
    requires { at + 8 ≤ length s.now }
    ensures { result ≡ turn 8 (number s.now at 8) 0 }
{
    let mut value: u64 = 0;
    for k in (0..8).rev() {
        value = value * 256 + u64::from(s[at + k]);
    }
    value
}

// Whether the eight bytes of a place are those of a number, which is turned about once and not at every place.
fn is_word(s: &[u8], at: usize, value: u64) -> bool
    requires { at + 8 ≤ length s.now }
    ensures { result ≡ eqb value (number s.now at 8) }
{
    value.swap_bytes() == word(s, at)
}

// Whether the record at a place is of this block, word by word where it lies; the name's last word is looked at first.
pub fn is_block(s: &[u8], at: usize, key: u64, name: Name) -> bool
    requires { at + 40 ≤ length s.now }
    ensures { result ≡ has_block s.now key (name_of name) at }
{
    if !is_word(s, at + FOURTH, name.fourth) {
        return false;
    }
    if !is_word(s, at, key) {
        return false;
    }
    is_word(s, at + FIRST, name.first)
        & is_word(s, at + SECOND, name.second)
        & is_word(s, at + THIRD, name.third)
}

// The mark of a block.
fn mark_of(key: u64, first: u64) -> u64
    ensures { result ≡ mark_of key first }
{
    key % 4_294_967_296 * 4_294_967_296 + first / 4_294_967_296
}

// The place of the first of the next sixteen records with this mark; the place behind them, where there is none.
fn ahead(s: &[u8], base: usize, size: usize, from: usize, mark: u64) -> usize
    requires { (40 ≤ size) × (base + size * (from + 16) ≤ length s.now) }
    ensures { result ≡ seek (has_mark s.now base size mark) from 16 }
{
    for i in from..from + TURN {
        if is_word(s, base + size * i + MARK, mark) {
            return i;
        }
    }
    from + TURN
}

// The place of the first record with this mark, from one place up to another, sixteen at a turn while there are so many:
// the step is sixteen or one, which no `for` counts.
fn marked(s: &[u8], base: usize, size: usize, from: usize, end: usize, mark: u64) -> usize
    requires { (40 ≤ size) × (base + size * end ≤ length s.now) }
    ensures { result ≡ seek (has_mark s.now base size mark) from (end - from) }
{
    let mut i = from;
    while i < end {
        if TURN <= end - i {
            let next = ahead(s, base, size, i, mark);
            if next < i + TURN {
                return next;
            }
            i += TURN;
            continue;
        }
        if is_word(s, base + size * i + MARK, mark) {
            return i;
        }
        i += 1;
    }
    i
}

// The place of the first record of this block, from one place up to another; no place below that other, where there is none.
// Only records with the block's mark are looked at whole, and each turn begins behind the last of them, which no `for` counts.
pub fn first(
    s: &[u8],
    base: usize,
    size: usize,
    from: usize,
    end: usize,
    key: u64,
    name: Name,
) -> usize
    requires { (40 ≤ size) × (base + size * end ≤ length s.now) }
    ensures { result ≡ first_of s.now base size from end key (name_of name) }
{
    let mark = mark_of(key, name.first);
    let mut i = from;
    loop {
        let next = marked(s, base, size, i, end, mark);
        if end <= next {
            break next;
        }
        if is_block(s, base + size * next, key, name) {
            break next;
        }
        i = next + 1;
    }
}
