// A journal's inputs and the record of one; which answers keep an input, and what a host is told of a refusal.
#![tactic(auto)]

ghost use Rattle.std.specs.Prelude.{◌≡◌, ◌+◌, ◌*◌, ◌^◌, ◌≤◌, ◌<◌, length};
ghost use Rattle.outgoing.specs.Wrote.{wrote};
ghost use Rattle.slots.specs.Slots.{is_input, is_readable, is_kept, record_bytes};

// The bytes of a slot, of an input at most, and before an input.
pub const LENGTH: usize = 128;

pub const MOST_INPUT: usize = 116;

pub const INPUT: usize = 11;

// Whether some bytes are a message.
pub fn is_readable(input: &[u8]) -> bool
    ensures { result ≡ is_readable input.now }
{
    let Some(_) = reading::read_message(input) else {
        return false;
    };
    true
}

// Whether some bytes are an input of a kind.
pub fn is_input(kind: u64, input: &[u8]) -> bool
    ensures { result ≡ is_input kind input.now }
{
    if MOST_INPUT < input.len() {
        return false;
    }
    match kind {
        1 => input.is_empty(),
        2 => input.len() == 32,
        3 => is_readable(input),
        _ => false,
    }
}

// Copies bytes to a place, one by one: std's copy would want a name from outside of whoever links the archive.
pub fn copy(slot: &mut [u8], at: usize, input: &[u8])
    requires { at + length input.now ≤ length slot.old }
    ensures { slot.new ≡ wrote slot.old at input.now }
{
    for k in 0..input.len() {
        slot[at + k] = input[k];
    }
}

// Writes the record of a number and an input over a slot.
pub fn write_record(slot: &mut [u8], sequence: u64, kind: u64, input: &[u8])
    requires { (length slot.old ≡ 128) × (sequence < 2 ^ 32) × (kind < 256) × (length input.now ≤ 116) }
    ensures { slot.new ≡ record_bytes sequence kind input.now }
{
    let size = input.len();
    fields::put(slot, 0, 3, 0x20_0004);
    fields::put(slot, 3, 4, sequence);
    fields::put(slot, 7, 3, 0x21_0001 + size as u64);
    fields::put(slot, 10, 1, kind);
    copy(slot, INPUT, input);
    fields::clear(slot, INPUT + size, MOST_INPUT - size);
    fields::put(slot, 127, 1, 0x5A);
}

// Whether an input that is answered with this number is kept.
pub fn is_kept(number: u64) -> bool
    ensures { result ≡ is_kept number }
{
    [0, 6, 7, 8].contains(&number)
}
