// Judging a slot: blank, torn, bad, or a whole record.
#![tactic(auto)]

ghost use Rattle.std.specs.Prelude.{◌≡◌, ◌^◌, ◌≤◌, ◌<◌, length, eqb};
ghost use Rattle.fields.specs.Places.{number};
ghost use Rattle.slots.specs.Slots.{record_bytes, record_in, judged};
ghost use Rattle.slot_reader.specs.Meaning.{Judged};

// What a slot holds. Of a whole record its number, its kind and its input, a part of the slot.
#[derive(Clone, Copy)]
pub enum Slot<'a> {
    Blank,
    Torn,
    Bad,
    Whole {
        sequence: u64,
        kind: u64,
        input: &'a [u8],
    },
}

// Whether a slot is the record of a number and an input, to the last byte.
fn is_record(slot: &[u8], sequence: u64, kind: u64, input: &[u8]) -> bool
    requires { (length slot.now ≡ 128) × (sequence < 2 ^ 32) × (kind < 256) × (length input.now ≤ 116) }
    ensures { result ≡ eqb (number slot.now 0 128) (number (record_bytes sequence kind input.now) 0 128) }
{
    let mut copy = [0u8; slots::LENGTH];
    slots::write_record(&mut copy, sequence, kind, input);
    fields::same(slot, 0, &copy, 0, slots::LENGTH)
}

// The record that a slot holds, if it is one. It stands apart, so that a slot that is blank or torn costs its tests alone.
#[inline(never)]
fn read_record(slot: &[u8]) -> Slot<'_>
    requires { length slot.now ≡ 128 }
    ensures { Judged (record_in slot.now) result }
{
    let size = fields::get(slot, 8, 2);
    if size == 0 {
        return Slot::Bad;
    }
    let length = (size - 1) as usize;
    if slots::MOST_INPUT < length {
        return Slot::Bad;
    }
    let kind = fields::get(slot, 10, 1);
    let input = &slot[slots::INPUT..slots::INPUT + length];
    if !slots::is_input(kind, input) {
        return Slot::Bad;
    }
    let sequence = fields::get(slot, 3, 4);
    if !is_record(slot, sequence, kind, input) {
        return Slot::Bad;
    }
    Slot::Whole {
        sequence,
        kind,
        input,
    }
}

// What a slot holds.
pub fn judge(slot: &[u8]) -> Slot<'_>
    requires { length slot.now ≡ 128 }
    ensures { Judged (judged slot.now) result }
{
    if fields::all_zero(slot, 0, slots::LENGTH) {
        return Slot::Blank;
    }
    if slot[127] != 0x5A {
        return Slot::Torn;
    }
    read_record(slot)
}
