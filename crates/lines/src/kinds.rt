// The six kinds of messages in words.
ghost use Rattle.std.specs.Prelude.{◌≡◌, ◌≤◌, length, drop};
ghost use Rattle.fields.specs.Names.{name_of};
ghost use Rattle.wire.specs.Meaning.{message_of, Writable};
ghost use Rattle.lines.specs.Script.{spoken};
ghost use Rattle.lines.specs.Kinds.{number_of, has as contains, OwnRead, makes, heard_of, CanWrite};

use fields::Name;
use parts::{Flaw, Part};
use wire::{Message, Statement};

// A kind of message, in the order of the wire's numbers.
#[derive(Clone, Copy, Debug, PartialEq, Eq)]
pub enum Kind {
    NewView,
    Propose,
    Vote,
    Blame,
    BlameSet,
    Status,
}

// Whether a kind has a field.
fn has(kind: Kind, tag: u8) -> bool
    requires { (2 ≤ tag) × (tag ≤ 8) }
    ensures { result ≡ contains (number_of kind) tag }
{
    match kind {
        Kind::NewView => tag != 5,
        Kind::Propose => tag != 6,
        Kind::Vote => (tag != 5) & (tag != 6) & (tag != 7),
        Kind::Blame => (tag == 2) | (tag == 8),
        Kind::BlameSet => (tag == 2) | (tag == 7),
        Kind::Status => (tag != 2) & (tag != 5) & (tag != 8),
    }
}

// The next field of a kind, or nothing if the kind hasn't got it.
fn own(line: &[u8], at: usize, kind: Kind, tag: u8) -> Result<Part, Flaw>
    requires { (2 ≤ tag) × (tag ≤ 8) × (at ≤ length line.now) }
    ensures { OwnRead line.now at kind tag result }
{
    if has(kind, tag) {
        return parts::field(line, at, tag);
    }
    let value = parts::small(0);
    Ok(Part { value, next: at })
}

// The message of a kind. A field that the kind hasn't got isn't looked at.
fn made(
    kind: Kind,
    view: u32,
    height: u32,
    name: Name,
    parent: Name,
    cert: u32,
    mask: u16,
    author: u8,
) -> Message
    ensures { (message_of result ≡ makes (number_of kind) view height (name_of name) (name_of parent) cert mask author) × (Writable result) }
{
    match kind {
        Kind::NewView => {
            let link = parts::small(u64::from(cert));
            Message::Stated(Statement {
                is_new_view: true,
                view,
                height,
                name,
                link,
                mask,
                author,
            })
        }
        Kind::Propose => Message::Stated(Statement {
            is_new_view: false,
            view,
            height,
            name,
            link: parent,
            mask,
            author,
        }),
        Kind::Vote => Message::Vote {
            view,
            height,
            name,
            author,
        },
        Kind::Blame => Message::Blame { view, author },
        Kind::BlameSet => Message::BlameSet { view, mask },
        Kind::Status => Message::Status {
            height,
            name,
            cert,
            mask,
        },
    }
}

// The message of a kind, from the words of a place on.
pub fn said(line: &[u8], at: usize, kind: Kind) -> Result<Message, Flaw>
    requires { at ≤ length line.now }
    ensures { (heard_of result ≡ spoken (number_of kind) (drop at line.now)) × (CanWrite result) }
{
    let view = own(line, at, kind, 2)?;
    let height = own(line, view.next, kind, 3)?;
    let name = own(line, height.next, kind, 4)?;
    let parent = own(line, name.next, kind, 5)?;
    let cert = own(line, parent.next, kind, 6)?;
    let mask = own(line, cert.next, kind, 7)?;
    let author = own(line, mask.next, kind, 8)?;
    parts::ending(line, author.next)?;
    Ok(made(
        kind,
        view.value.fourth as u32,
        height.value.fourth as u32,
        name.value,
        parent.value,
        cert.value.fourth as u32,
        mask.value.fourth as u16,
        author.value.fourth as u8,
    ))
}
