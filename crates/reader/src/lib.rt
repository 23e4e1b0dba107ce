// Walking a message field by field: one reader goes from its first field to its end, and knows its place and the kind.
#![tactic(auto)]

ghost use Rattle.std.specs.Prelude.{◌≡◌, ◌≤◌};
ghost use Rattle.rules.specs.Messages.{width};
ghost use Rattle.wire.specs.Fields.{is_field, has as contains, Tags, start, moved, walked};
ghost use Rattle.reader.specs.Places.{place_of};

// A place in a message, and the kind that was read before it, 0 where none was.
#[derive(Clone, Copy)]
pub struct Cursor {
    pub at: usize,
    pub kind: u8,
}

// A reader keeps the message and its place in it.
#[derive(Drop)]
pub struct Reader<'a> {
    pub message: &'a [u8],
    pub cursor: Cursor,
}

// Whether a field of this tag and width stands at a place.
fn stands(s: &[u8], at: usize, tag: u8, width: usize) -> bool
    requires { width ≤ 32 }
    ensures { result ≡ is_field s.now at tag width }
{
    let size = s.len();
    if size < at {
        return false;
    }
    let field = 3 + width;
    if size - at < field {
        return false;
    }
    if s[at] != tag {
        return false;
    }
    fields::get(s, at + 1, 2) == width as u64
}

// The tags of a kind's fields, tag t as bit t; every message has its kind.
fn tags_of(kind: u8) -> u64
    ensures { Tags kind result }
{
    match kind {
        1 => 0b1_1101_1110,
        2 => 0b1_1011_1110,
        3 => 0b1_0001_1110,
        4 => 0b1_0000_0110,
        5 => 0b0_1000_0110,
        6 => 0b0_1101_1010,
        _ => 0b0_0000_0010,
    }
}

// Whether a message of a kind has a field of a tag.
fn has(kind: u8, tag: u8) -> bool
    ensures { result ≡ contains kind tag }
{
    if 8 < tag {
        return false;
    }
    (tags_of(kind) >> (tag as u64)) % 2 == 1
}

// How many bytes the value of a tag has.
fn width_of(tag: u8) -> usize
    ensures { result ≡ width tag }
{
    match tag {
        1 => 1,
        2 => 4,
        3 => 4,
        4 => 32,
        5 => 32,
        6 => 4,
        7 => 2,
        8 => 1,
        _ => 0,
    }
}

// The cursor behind the field of a tag; the first field's value is the kind. Where the field isn't there: past the end, where nothing stands.
// Where the kind has no such field, the same cursor.
fn field_at(s: &[u8], cursor: Cursor, tag: u8) -> Cursor
    ensures { place_of result ≡ moved s.now tag (place_of cursor) }
{
    let kind = cursor.kind;
    if !has(kind, tag) {
        return cursor;
    }
    let at = cursor.at;
    let width = width_of(tag);
    if !stands(s, at, tag, width) {
        return Cursor {
            at: s.len() + 1,
            kind,
        };
    }
    let next = at + 3 + width;
    if tag == 1 {
        return Cursor {
            at: next,
            kind: s[at + 3],
        };
    }
    Cursor { at: next, kind }
}

impl Cursor {
    // The first place of a message.
    pub fn start() -> Cursor
        ensures { place_of result ≡ start }
    {
        Cursor { at: 0, kind: 0 }
    }
}

impl<'a> Reader<'a> {
    // A reader at the first place of a message.
    pub fn new(message: &'a [u8]) -> Reader<'a>
        ensures { (result.message ≡ message.entry) × (place_of result.cursor ≡ start) }
    {
        let cursor = Cursor::start();
        Reader { message, cursor }
    }

    // The reader behind the field of a tag, if the kind has one.
    pub fn field(self, tag: u8) -> Reader<'a>
        ensures { (result.message ≡ self.entry.message) × (place_of result.cursor ≡ moved self.entry.message.now tag (place_of self.entry.cursor)) }
    {
        let cursor = field_at(self.message, self.cursor, tag);
        Reader {
            message: self.message,
            cursor,
        }
    }
}

// One reader walks the message from its first field to its end: fields stand in ascending tag order.
pub fn walk(message: &[u8]) -> Cursor
    ensures { place_of result ≡ walked message.now 8 }
{
    Reader::new(message)
        .field(1)
        .field(2)
        .field(3)
        .field(4)
        .field(5)
        .field(6)
        .field(7)
        .field(8)
        .cursor
}
