// What a message to a station held by value is answered, and what it leaves: the refusals in their order, each function straight from
// its definition. What is said goes into a buffer from its start on.
#![tactic(auto)]

ghost use Rattle.std.specs.Prelude.{◌≡◌, true, ◌≤◌, length};
ghost use Rattle.rules.specs.Messages.{view_of, allowed};
ghost use Rattle.rules.specs.Refusals as refusals;
ghost use Rattle.wire.specs.Meaning.{message_of};
ghost use Rattle.plain_tables.specs.Meaning.{state, Sized};
ghost use Rattle.plain_messages.specs.Whole.{Whole};
ghost use Rattle.plain_turns.specs.Turns.{refusing, chosen, Turned, Answered};

use plain_acts::Work;
use plain_tables::{Cause, Engine, Phase};
use plain_words::Certificate;
use settings::Settings;
use wire::Message;

// The number of the answer, how many bytes were written, and the station that is left.
#[derive(Clone, Copy)]
pub struct Turn {
    pub number: u64,
    pub count: usize,
    pub engine: Engine,
}

// "Nothing" changes.
pub fn refused(number: u64, e: Engine) -> Turn
    ensures { result ≡ refusing number e }
{
    Turn {
        number,
        count: 0,
        engine: e,
    }
}

// 3, "already stopped".
pub fn running(e: Engine) -> bool
    ensures { result ≡ refusals.running (state e) }
{
    !matches!(e.phase, Phase::Stopped(_))
}

// The tables have room for what was added.
pub fn has_room(e: Engine) -> bool
    requires { Sized e }
    ensures { result ≡ refusals.has_room (state e) }
{
    (e.statements.count <= Settings::MOST_STATEMENTS) & (e.tallies.count <= Settings::MOST_TALLIES)
}

// 6, "no record free for what this input must add": the rule's work, or the station as it was, stopped.
pub fn if_room(e: Engine, w: Work) -> Turn
    requires { Sized w.engine }
    ensures { result ≡ chosen (refusals.has_room (state w.engine)) e w }
{
    if has_room(w.engine) {
        return Turn {
            number: 0,
            count: w.at,
            engine: w.engine,
        };
    }
    refused(6, e.with_phase(Phase::Stopped(Cause::Full)))
}

// The view that a message is of; a status has none.
fn view_of(message: Message) -> u32
    ensures { result ≡ view_of (message_of message) }
{
    match message {
        Message::Stated(x) => x.view,
        Message::Vote { view, .. } => view,
        Message::Blame { view, .. } => view,
        Message::BlameSet { view, .. } => view,
        Message::Status { .. } => 0,
    }
}

// 11, "more than one view ahead of the view held or last quit".
fn ahead(e: Engine, message: Message) -> bool
    ensures { result ≡ refusals.ahead (message_of message) (state e) }
{
    u64::from(e.view) + 1 < u64::from(view_of(message))
}

// 12, "the seventeenth": a vote that would open a tally, by an author who opened as many as one may.
fn used_up(e: Engine, message: Message) -> bool
    requires { Sized e }
    ensures { result ≡ refusals.used_up (message_of message) (state e) }
{
    let Message::Vote {
        view,
        height,
        name,
        author,
    } = message
    else {
        return false;
    };
    let t = Certificate {
        view,
        height,
        name,
        mask: 0,
    };
    !e.tallies.any_of(t) & ((Settings::MOST_OPENED as usize) <= e.tallies.opened_by(author))
}

// What is done with a message that may be heard: 12, "tested after 5 and before 6".
fn heard(e: Engine, message: Message, out: &mut [u8]) -> Turn
    requires { (Whole e) × (allowed (state e).settings (message_of message) ≡ true) × (200 ≤ length out.old) }
    ensures { Turned (refusals.heard (message_of message) (state e)) result out.new }
{
    if used_up(e, message) {
        return refused(12, e);
    }
    let w = plain_messages::handled(e, message, out, 0);
    if_room(e, w)
}

// A message: 3, then 4, "unreadable message", 5, "message not allowed", "right after 5" 11, then 12 and 6.
pub fn step(e: Engine, message: &[u8], out: &mut [u8]) -> Turn
    requires { (Whole e) × (200 ≤ length out.old) }
    ensures { Answered (refusals.step message.now (state e)) result out.new }
{
    if !running(e) {
        return refused(3, e);
    }
    let read = reading::read_message(message);
    match read {
        None => refused(4, e),
        Some(m) => {
            let settings = e.settings;
            if !allowed::message_allowed(settings, m) {
                return refused(5, e);
            }
            if ahead(e, m) {
                return refused(11, e);
            }
            heard(e, m, out)
        }
    }
}
