// Outgoing fields in words: any bytes can be shown, and each field goes by its own length.
ghost use Rattle.std.specs.Prelude.{◌≤◌, ◌<◌, length};

use page::Page;

// The fields in the first bytes of an out buffer, each on a line of its own.
pub fn first<P: Print>(page: &mut Page<P>, out: &[u8], count: usize) {
    if count <= out.len() {
        all(page, &out[..count]);
    }
}

// The first bytes of an out buffer in hex, and the end of the line.
pub fn bytes<P: Print>(page: &mut Page<P>, out: &[u8], count: usize) {
    if count <= out.len() {
        page.bytes(&out[..count]);
        page.put(b'\n');
    }
}

// All fields.
fn all<P: Print>(page: &mut Page<P>, out: &[u8]) {
    let mut place = 0;
    // A turn goes on by a field.
    while place < out.len() {
        let next = field_end(out, place);
        line(page, &out[place..next]);
        place = next;
    }
}

// Where the field at a place ends: by its own length, or where the bytes end.
fn field_end(out: &[u8], place: usize) -> usize
    requires { place < length out.now }
    ensures { (place < result) × (result ≤ length out.now) }
{
    let left = out.len() - place;
    if left < 3 {
        return out.len();
    }
    let length = usize::from(out[place + 1]) * 256 + usize::from(out[place + 2]);
    if left - 3 < length {
        return out.len();
    }
    place + 3 + length
}

// A field's line: what it says, and its bytes in hex.
fn line<P: Print>(page: &mut Page<P>, field: &[u8]) {
    page.say(b"  ");
    saying(page, field);
    page.say(b" # ");
    page.bytes(field);
    page.put(b'\n');
}

// What a field says, by its tag.
fn saying<P: Print>(page: &mut Page<P>, field: &[u8]) {
    if field.len() < 4 {
        unknown(page);
        return;
    }
    match field[0] {
        0x10 => {
            page.say(b"to all: ");
            message(page, &field[3..]);
        }
        0x11 => {
            spell::number(page, b"to ", u64::from(field[3]));
            page.say(b": ");
            message(page, &field[4..]);
        }
        0x12 => committed(page, &field[3..]),
        0x13 => shown(page, &field[3..]),
        _ => unknown(page),
    }
}

fn unknown<P: Print>(page: &mut Page<P>) {
    page.say(b"unknown field");
}

// A message in words, or its bytes where it is none.
fn message<P: Print>(page: &mut Page<P>, message: &[u8]) {
    let Some(said) = reading::read_message(message) else {
        page.say(b"message ");
        page.bytes(message);
        return;
    };
    spell::message(page, said);
}

// A committed block, by its height and its name.
fn committed<P: Print>(page: &mut Page<P>, value: &[u8]) {
    if value.len() != 36 {
        unknown(page);
        return;
    }
    let height = fields::get(value, 0, 4);
    let name = fields::get_name(value, 4);
    spell::committed(page, height, name);
}

// A propose on the wall display, by its height, its name and its ticks left.
fn shown<P: Print>(page: &mut Page<P>, value: &[u8]) {
    if value.len() != 44 {
        unknown(page);
        return;
    }
    let height = fields::get(value, 0, 4);
    let name = fields::get_name(value, 4);
    let left = fields::get(value, 36, 8);
    spell::shown(page, height, name, left);
}
