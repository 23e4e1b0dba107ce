// What a message does to a station held by value, each function straight from its definition.
#![tactic(auto)]

ghost use Rattle.std.specs.Prelude.{◌≡◌, true, [], ◌∷◌, ◌+◌, ◌≤◌, length};
ghost use Rattle.std.proofs.Math.Option.{none};
ghost use Rattle.rules.specs.Messages.{allowed, to_all, outgoing};
ghost use Rattle.rules.specs.Words.{message as said};
ghost use Rattle.rules.specs.Inputs as inputs;
ghost use Rattle.wire.specs.Meaning.{statement_of, message_of, Linked};
ghost use Rattle.outgoing.specs.Wrote.{Says};
ghost use Rattle.plain_tables.specs.Meaning.{state};
ghost use Rattle.plain_acts.specs.Works.{Worked};
ghost use Rattle.plain_messages.specs.Whole.{Whole};

use plain_acts::Work;
use plain_tables::Engine;
use plain_words::Certificate;
use wire::{Message, Statement};

// Two statements to all, the earlier first.
pub fn both(first: Statement, second: Statement, out: &mut [u8], at: usize) -> usize
    requires { (Linked first) × (Linked second) × (at + 200 ≤ length out.old) }
    ensures { Says out.old at (outgoing (to_all (said (statement_of first none)) ∷ to_all (said (statement_of second none)) ∷ [])) out.new result }
{
    let next = effects::to_all(out, at, Message::Stated(first));
    effects::to_all(out, next, Message::Stated(second))
}

// A statement, by whether it is stored, whether the station is in its view, and whether a stored one conflicts.
pub fn statement(e: Engine, x: Statement, out: &mut [u8], at: usize) -> Work
    requires { (Whole e) × (allowed (state e).settings (said (statement_of x none)) ≡ true) × (at + 200 ≤ length out.old) }
    ensures { Worked (inputs.statement (statement_of x none) (state e)) out.old at result out.new }
{
    if e.statements.any_same(x) {
        let engine = plain_acts::certificate_joined(e, x);
        return Work { engine, at };
    }
    let now = plain_acts::stored(e, x);
    if !plain_acts::is_in(e, x.view) {
        return Work { engine: now, at };
    }
    match e.statements.first_conflict(x) {
        Some(held) => {
            let engine = plain_acts::quit(now);
            let next = both(held.statement, x, out, at);
            Work { engine, at: next }
        }
        None => plain_acts::voting(now, x, out, at),
    }
}

// What a message that is allowed does.
pub fn handled(e: Engine, message: Message, out: &mut [u8], at: usize) -> Work
    requires { (Whole e) × (allowed (state e).settings (message_of message) ≡ true) × (at + 200 ≤ length out.old) }
    ensures { Worked (inputs.handled (message_of message) (state e)) out.old at result out.new }
{
    match message {
        Message::Stated(x) => statement(e, x, out, at),
        Message::Vote {
            view,
            height,
            name,
            author,
        } => {
            let mask = plain_acts::mask_of(u64::from(author));
            let t = Certificate {
                view,
                height,
                name,
                mask,
            };
            let engine = plain_acts::tallied(e, Some(author), t);
            Work { engine, at }
        }
        Message::Blame { view, author } => plain_acts::blaming(
            e,
            view,
            plain_acts::mask_of(u64::from(author)),
            out,
            at,
        ),
        Message::BlameSet { view, mask } => plain_acts::blaming(e, view, mask, out, at),
        Message::Status {
            height,
            name,
            cert,
            mask,
        } => {
            let t = Certificate {
                view: cert,
                height,
                name,
                mask,
            };
            let engine = plain_acts::tallied(e, None, t);
            Work { engine, at }
        }
    }
}
