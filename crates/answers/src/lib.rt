// What a statement does to a well-formed store by its plan, and what it makes the station write into the out buffer from a place on.
#![tactic(auto)]

ghost use Rattle.std.specs.Prelude.{◌≡◌, true, ◌+◌, ◌≤◌, length};
ghost use Rattle.std.proofs.Math.Option.{none};
ghost use Rattle.rules.specs.Words.{message as said, own_block};
ghost use Rattle.rules.specs.Inputs as inputs;
ghost use Rattle.rules.specs.Refusals.{has_room};
ghost use Rattle.wire.specs.Meaning.{statement_of};
ghost use Rattle.store.specs.Decode.{state_of, tallies};
ghost use Rattle.store.specs.Searches.{block_at};
ghost use Rattle.kept.specs.Said.{Sendable};
ghost use Rattle.acts.specs.Works.{Formed, Works};
ghost use Rattle.plans.specs.Plans.{planned};
ghost use Rattle.acts.specs.Answers.{answered, Stands};

use plans::Plan;
use store::Station;
use wire::Statement;

// What a statement that was just stored makes the station do: nothing outside its view, else quit on a conflict, or vote.
fn answer(
    store: &mut [u8],
    out: &mut [u8],
    at: usize,
    place: usize,
    x: Statement,
    tally: Option<usize>,
) -> usize
    requires { (Formed store.old) × (Stands store.old place x) × (tally ≡ block_at (own_block (statement_of x none) 0) (tallies store.old)) × (at + 200 ≤ length out.old) }
    ensures { Works (answered (statement_of x none) (state_of store.old)) out.old at store.new out.new result }
{
    if !acts::is_in(store, x.view) {
        return at;
    }
    match search::find_conflict(store, x) {
        Some(i) => {
            let earlier = store::statement_at(store, i);
            acts::quit_with_pair(store, out, at, earlier, x)
        }
        None => ballots::voting(store, out, at, place, x, tally),
    }
}

// A statement that fits, by its plan: a repeat joins its certificate, a new one is stored and answered. No full plan comes here.
pub fn statement(store: &mut [u8], out: &mut [u8], at: usize, x: Statement, plan: Plan) -> usize
    requires { (Formed store.old) × (Sendable (state_of store.old).settings (said (statement_of x none))) × (has_room (inputs.statement (statement_of x none) (state_of store.old)).now ≡ true) × (plan ≡ planned (statement_of x none) (state_of store.old)) × (at + 200 ≤ length out.old) }
    ensures { Works (inputs.statement (statement_of x none) (state_of store.old)) out.old at store.new out.new result }
{
    match plan {
        Plan::Repeat => {
            joining::join_certificate(store, words::certificate_of(x));
            at
        }
        Plan::New(certified, own) => {
            let station = Station::load(store);
            let place = station.statements;
            let opened = storing::store_new(store, x, certified, own);
            answer(store, out, at, place, x, Some(opened))
        }
        Plan::Full => at,
    }
}
