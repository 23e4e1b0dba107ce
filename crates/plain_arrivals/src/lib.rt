// What a station held by value does in a view that it has entered, for the plain engine, each function straight from its definition.
#![tactic(auto)]

ghost use Rattle.std.specs.Prelude.{◌+◌, ◌*◌, ◌<◌, ◌≤◌, length};
ghost use Rattle.rules.specs.Inputs as inputs;
ghost use Rattle.plain_words.specs.Places.{Within};
ghost use Rattle.plain_statements.specs.Meaning.{statements, room};
ghost use Rattle.plain_tallies.specs.Meaning as tally_room;
ghost use Rattle.plain_tables.specs.Meaning.{state, Sized};
ghost use Rattle.plain_acts.specs.Works.{Worked};
ghost use Rattle.plain_arrivals.specs.Votable.{Votables, votes_long, OneFree};

use plain_acts::Work;
use plain_statements::Statements;
use plain_tables::Engine;
use wire::Message;

// "Votes on stored statements of it by the rules above", one after the other.
fn voting_all(xs: Statements, e: Engine, out: &mut [u8], at: usize) -> Work
    requires { (Within room xs.items xs.count) × (Sized e) × (e.tallies.count < tally_room.room) × (Votables (state e).tallies (statements xs)) × (at + 160 * xs.count + 40 ≤ length out.old) }
    ensures { Worked (inputs.voting_all (statements xs) (state e)) out.old at result out.new }
{
    let mut engine = e;
    let mut next = at;
    for i in 0..xs.count {
        let w = plain_acts::voting(engine, xs.items[i].statement, out, next);
        engine = w.engine;
        next = w.at;
    }
    Work { engine, at: next }
}

// "Quits if the new view's blame mask is full, or if two stored statements of it conflict (if both causes hold, the set only); else
// votes on stored statements of it by the rules above".
fn arrive(e: Engine, out: &mut [u8], at: usize) -> Work
    requires { (OneFree e) × (at + votes_long ≤ length out.old) }
    ensures { Worked (inputs.arrive (state e)) out.old at result out.new }
{
    let view = e.view;
    if plain_acts::blame_full(e, view) {
        let mask = plain_acts::blames_of(e, view);
        let next = effects::to_all(out, at, Message::BlameSet { view, mask });
        let engine = plain_acts::quit(e);
        return Work { engine, at: next };
    }
    let current = plain_orders::current(view, e.statements);
    match plain_pairs::pair(current) {
        Some((x, y)) => {
            let next = plain_messages::both(x.statement, y.statement, out, at);
            let engine = plain_acts::quit(e);
            Work { engine, at: next }
        }
        None => {
            let order = plain_orders::in_order(current);
            voting_all(order, e, out, at)
        }
    }
}

// A waiting station enters the next view, if it is time, and does there what is to be done.
pub fn enter(e: Engine, out: &mut [u8], at: usize) -> Work
    requires { (OneFree e) × (at + 200 + votes_long ≤ length out.old) }
    ensures { Worked (inputs.enter (state e)) out.old at result out.new }
{
    if !plain_entries::enters_now(e) {
        return Work { engine: e, at };
    }
    let w = plain_entries::entered(e, out, at);
    arrive(w.engine, out, w.at)
}
