// Reading a message from any bytes. A kind's fields stand at the same places in all its messages, so their values are read where a
// reader has seen them stand.
#![tactic(auto)]

ghost use Rattle.std.specs.Prelude.{◌≡◌, ◌≤◌, length};
ghost use Rattle.rules.specs.Messages.{read};
ghost use Rattle.wire.specs.Fields.{walked, made, ended};
ghost use Rattle.wire.specs.Meaning.{read_of};
ghost use Rattle.reader.specs.Places.{place_of};

use fields::Name;
use reader::Cursor;
use wire::{Message, Statement};

// A new-view; its link is the certificate view.
fn new_view(s: &[u8]) -> Option<Message>
    requires { 69 ≤ length s.now }
    ensures { read_of result ≡ made s.now 1 }
{
    let link = Name {
        first: 0,
        second: 0,
        third: 0,
        fourth: fields::get(s, 56, 4),
    };
    let name = fields::get_name(s, 21);
    Some(Message::Stated(Statement {
        is_new_view: true,
        view: fields::get(s, 7, 4) as u32,
        height: fields::get(s, 14, 4) as u32,
        name,
        link,
        mask: fields::get(s, 63, 2) as u16,
        author: s[68],
    }))
}

// A propose; its link is the parent.
fn propose(s: &[u8]) -> Option<Message>
    requires { 97 ≤ length s.now }
    ensures { read_of result ≡ made s.now 2 }
{
    let name = fields::get_name(s, 21);
    let link = fields::get_name(s, 56);
    Some(Message::Stated(Statement {
        is_new_view: false,
        view: fields::get(s, 7, 4) as u32,
        height: fields::get(s, 14, 4) as u32,
        name,
        link,
        mask: fields::get(s, 91, 2) as u16,
        author: s[96],
    }))
}

// A vote.
fn vote(s: &[u8]) -> Option<Message>
    requires { 57 ≤ length s.now }
    ensures { read_of result ≡ made s.now 3 }
{
    let name = fields::get_name(s, 21);
    Some(Message::Vote {
        view: fields::get(s, 7, 4) as u32,
        height: fields::get(s, 14, 4) as u32,
        name,
        author: s[56],
    })
}

// A blame.
fn blame(s: &[u8]) -> Option<Message>
    requires { 15 ≤ length s.now }
    ensures { read_of result ≡ made s.now 4 }
{
    Some(Message::Blame {
        view: fields::get(s, 7, 4) as u32,
        author: s[14],
    })
}

// A blame set.
fn blame_set(s: &[u8]) -> Option<Message>
    requires { 16 ≤ length s.now }
    ensures { read_of result ≡ made s.now 5 }
{
    Some(Message::BlameSet {
        view: fields::get(s, 7, 4) as u32,
        mask: fields::get(s, 14, 2) as u16,
    })
}

// A status.
fn status(s: &[u8]) -> Option<Message>
    requires { 58 ≤ length s.now }
    ensures { read_of result ≡ made s.now 6 }
{
    let name = fields::get_name(s, 14);
    Some(Message::Status {
        height: fields::get(s, 7, 4) as u32,
        name,
        cert: fields::get(s, 49, 4) as u32,
        mask: fields::get(s, 56, 2) as u16,
    })
}

// What is read where a reader has walked a message: at its end, the message of its kind; elsewhere, and of another kind, nothing.
fn message_at(s: &[u8], cursor: Cursor) -> Option<Message>
    requires { place_of cursor ≡ walked s.now 8 }
    ensures { read_of result ≡ ended s.now (place_of cursor) }
{
    if cursor.at != s.len() {
        return None;
    }
    let kind = cursor.kind;
    match kind {
        1 => new_view(s),
        2 => propose(s),
        3 => vote(s),
        4 => blame(s),
        5 => blame_set(s),
        6 => status(s),
        _ => None,
    }
}

// Reads a message: any bytes, any length.
pub fn read_message(message: &[u8]) -> Option<Message>
    ensures { read_of result ≡ read message.now }
{
    let cursor = reader::walk(message);
    message_at(message, cursor)
}
