// How a station quits its view, and what blames make it do: the store changed, and what it writes into the out buffer from a place on.
#![tactic(auto)]

ghost use Rattle.std.specs.Prelude.{◌≡◌, true, [], ◌∷◌, ◌+◌, ◌^◌, ◌≤◌, ◌<◌, length};
ghost use Rattle.std.proofs.Math.Option.{none};
ghost use Rattle.rules.specs.Messages.{view_allowed, to_all, blame_set, outgoing};
ghost use Rattle.rules.specs.Words.{message as said};
ghost use Rattle.rules.specs.Inputs as inputs;
ghost use Rattle.wire.specs.Meaning.{statement_of, message_of, Writable, Linked};
ghost use Rattle.outgoing.specs.Wrote.{Says};
ghost use Rattle.store.specs.Decode.{state_of, Form, Left};
ghost use Rattle.acts.specs.Works.{Formed, Works};

use store::{Phase, Station};
use wire::{Message, Statement};

// Whether the station is in a view.
pub fn is_in(store: &[u8], view: u32) -> bool
    requires { Form store.now }
    ensures { result ≡ inputs.is_in view (state_of store.now) }
{
    let station = Station::load(store);
    let phase = station.phase;
    match phase {
        Phase::InView => view == station.view,
        _ => false,
    }
}

// The station quits its view and waits, from the clock on.
fn quit(store: &mut [u8])
    requires { Formed store.old }
    ensures { Left store.new (inputs.quit [] (state_of store.old)).now }
{
    let station = Station::load(store);
    records::set_phase(store, Phase::Waiting(station.clock));
}

// Sends two messages to all, one after the other.
pub fn send_both(out: &mut [u8], at: usize, first: Message, second: Message) -> usize
    requires { (Writable first) × (Writable second) × (at + length (outgoing (to_all (message_of first) ∷ to_all (message_of second) ∷ [])) ≤ length out.old) }
    ensures { Says out.old at (outgoing (to_all (message_of first) ∷ to_all (message_of second) ∷ [])) out.new result }
{
    let next = effects::to_all(out, at, first);
    effects::to_all(out, next, second)
}

// Whether the blame mask of a view is full.
pub fn blame_full(store: &[u8], view: u32) -> bool
    requires { (Form store.now) × (view_allowed (state_of store.now).settings view ≡ true) }
    ensures { result ≡ inputs.blame_full view (state_of store.now) }
{
    let station = Station::load(store);
    let settings = station.settings;
    let mask = store::blame_at(store, view as usize - 1);
    settings.quorum(mask as u64)
}

// Sends the blame set of a view, the mask now held, and quits.
pub fn quit_with_set(store: &mut [u8], out: &mut [u8], at: usize, view: u32) -> usize
    requires { (Formed store.old) × (view_allowed (state_of store.old).settings view ≡ true) × (at + 19 ≤ length out.old) }
    ensures { Works (inputs.quit (to_all (blame_set view (inputs.blames_of view (state_of store.old))) ∷ []) (state_of store.old)) out.old at store.new out.new result }
{
    let held = store::blame_at(store, view as usize - 1);
    quit(store);
    effects::to_all(out, at, Message::BlameSet { view, mask: held })
}

// A mask joins the blames of a view; at f+1, while the station is in that view, it sends the set and quits.
pub fn blaming(store: &mut [u8], out: &mut [u8], at: usize, view: u32, mask: u16) -> usize
    requires { (Formed store.old) × (view_allowed (state_of store.old).settings view ≡ true) × (mask < 2 ^ (state_of store.old).settings.n) × (at + 19 ≤ length out.old) }
    ensures { Works (inputs.blaming view mask (state_of store.old)) out.old at store.new out.new result }
{
    records::join_blame(store, view, mask);
    if !is_in(store, view) {
        return at;
    }
    if !blame_full(store, view) {
        return at;
    }
    quit_with_set(store, out, at, view)
}

// Sends two statements to all, the earlier first, and quits.
pub fn quit_with_pair(
    store: &mut [u8],
    out: &mut [u8],
    at: usize,
    first: Statement,
    second: Statement,
) -> usize
    requires { (Formed store.old) × (Linked first) × (Linked second) × (at + 200 ≤ length out.old) }
    ensures { Works (inputs.quit (to_all (said (statement_of first none)) ∷ to_all (said (statement_of second none)) ∷ []) (state_of store.old)) out.old at store.new out.new result }
{
    quit(store);
    send_both(out, at, Message::Stated(first), Message::Stated(second))
}
