// The items of a relay envelope, read and counted in a cycle of two functions: an item may be an envelope.
#![tactic(auto)]

ghost use Rattle.std.specs.Prelude.{suc};
ghost use Rattle.items.specs.Reading.{inside, envelope_in};
ghost use Rattle.items.specs.Meaning.{FirstOf, AllOf};

// The most bytes of an envelope, and the most depths.
pub const MOST_BYTES: usize = 8192;

const MOST_DEPTH: usize = 4;

pub const ENVELOPE_TAG: u8 = 0x30;

const MESSAGE_TAG: u8 = 0x31;

// An item: its bytes, and the messages in it.
#[derive(Clone, Copy)]
struct Item {
    size: usize,
    count: usize,
}

// Reads the first item, if there is one: a message, or an envelope, of which `depth` more may be opened.
#[cycle(read_item_read_items)]
fn read_item(s: &[u8], depth: usize) -> Option<Item>
    ensures { FirstOf depth s.now result }
{
    if s.len() < 3 {
        return None;
    }
    let size = fields::get(s, 1, 2) as usize;
    if s.len() - 3 < size {
        return None;
    }
    let end = 3 + size;
    let tag = s[0];
    if tag == MESSAGE_TAG {
        if slots::is_readable(&s[3..end]) {
            return Some(Item {
                size: end,
                count: 1,
            });
        }
        return None;
    }
    if tag != ENVELOPE_TAG {
        return None;
    }
    if depth == 0 {
        return None;
    }
    let count = read_items(&s[3..end], depth - 1)?;
    Some(Item { size: end, count })
}

// How many messages are in the items that some bytes are, to the last byte, in an envelope below which `depth` more may be opened.
// A turn goes on by the length of an item, so it is no count of an index.
#[cycle(read_item_read_items)]
fn read_items(s: &[u8], depth: usize) -> Option<usize>
    ensures { AllOf (inside (suc depth) s.now) s.now result }
{
    let mut at: usize = 0;
    let mut messages: usize = 0;
    while at < s.len() {
        let item = read_item(&s[at..], depth)?;
        at += item.size;
        messages += item.count;
    }
    Some(messages)
}

// How many messages are in an envelope, if the bytes are one: any bytes, any length.
pub fn read_envelope(s: &[u8]) -> Option<usize>
    ensures { AllOf (envelope_in s.now) s.now result }
{
    if MOST_BYTES < s.len() {
        return None;
    }
    if s.len() < 3 {
        return None;
    }
    if s[0] != ENVELOPE_TAG {
        return None;
    }
    let size = fields::get(s, 1, 2) as usize;
    if s.len() - 3 != size {
        return None;
    }
    read_items(&s[3..], MOST_DEPTH - 1)
}
