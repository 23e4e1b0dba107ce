// Outgoing fields, written into an out buffer from a place on: a message to all or to one station, a committed block.
// A caller shows that there is room, and that a new-view's certificate view fits its 4 bytes; no other byte changes.
#![tactic(auto)]

ghost use Rattle.std.specs.Prelude.{◌+◌, ◌≤◌, length};
ghost use Rattle.fields.specs.Names.{name_of};
ghost use Rattle.rules.specs.Messages.{to_all, to_one, committed, effect};
ghost use Rattle.wire.specs.Meaning.{message_of, Writable};
ghost use Rattle.outgoing.specs.Wrote.{Says};

use fields::Name;
use wire::Message;

// Tag 10: a message to all.
pub fn to_all(out: &mut [u8], at: usize, message: Message) -> usize
    requires { (Writable message) × (at + length (effect (to_all (message_of message))) ≤ length out.old) }
    ensures { Says out.old at (effect (to_all (message_of message))) out.new result }
{
    let width = writing::size(message);
    fields::put(out, at, 3, 0x10_0000 + width as u64);
    writing::write_message(out, at + 3, message)
}

// Tag 11: a message to one station.
pub fn to_one(out: &mut [u8], at: usize, station: u8, message: Message) -> usize
    requires { (Writable message) × (at + length (effect (to_one station (message_of message))) ≤ length out.old) }
    ensures { Says out.old at (effect (to_one station (message_of message))) out.new result }
{
    let width = writing::size(message);
    fields::put(out, at, 3, 0x11_0001 + width as u64);
    fields::put(out, at + 3, 1, station as u64);
    writing::write_message(out, at + 4, message)
}

// Tag 12: a committed block.
pub fn committed(out: &mut [u8], at: usize, height: u32, name: Name) -> usize
    requires { at + length (effect (committed height (name_of name))) ≤ length out.old }
    ensures { Says out.old at (effect (committed height (name_of name))) out.new result }
{
    fields::put(out, at, 3, 0x12_0024);
    fields::put(out, at + 3, 4, height as u64);
    fields::put_name(out, at + 7, name);
    at + 39
}
