// Messages of every kind, written into an out buffer from a place on, and how long each is.
// A caller shows that there is room, and that a new-view's certificate view fits its 4 bytes; no other byte changes.
#![tactic(auto)]

ghost use Rattle.std.specs.Prelude.{◌≡◌, ◌+◌, ◌≤◌, length};
ghost use Rattle.rules.specs.Messages.{write};
ghost use Rattle.wire.specs.Meaning.{message_of, Writable};
ghost use Rattle.outgoing.specs.Wrote.{Says};

use wire::Message;

// How many bytes a message is written in.
pub fn size(message: Message) -> usize
    ensures { result ≡ length (write (message_of message)) }
{
    match message {
        Message::Stated(x) => { if x.is_new_view { 69 } else { 97 } }
        Message::Vote { .. } => 57,
        Message::Blame { .. } => 15,
        Message::BlameSet { .. } => 16,
        Message::Status { .. } => 58,
    }
}

// Writes a message to a place; answers the place after it.
pub fn write_message(out: &mut [u8], at: usize, message: Message) -> usize
    requires { (Writable message) × (at + length (write (message_of message)) ≤ length out.old) }
    ensures { Says out.old at (write (message_of message)) out.new result }
{
    match message {
        Message::Stated(x) => {
            if x.is_new_view {
                by_kind::new_view_out(out, at, x)
            } else {
                by_kind::propose_out(out, at, x)
            }
        }
        Message::Vote {
            view,
            height,
            name,
            author,
        } => by_kind::vote_out(out, at, view, height, name, author),
        Message::Blame { view, author } => by_kind::blame_out(out, at, view, author),
        Message::BlameSet { view, mask } => by_kind::blame_set_out(out, at, view, mask),
        Message::Status {
            height,
            name,
            cert,
            mask,
        } => by_kind::status_out(out, at, height, name, cert, mask),
    }
}
