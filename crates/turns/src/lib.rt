// The parts of a tick, as acts on a well-formed store: what each does to it, and what it writes into the out buffer from a place on.
#![tactic(auto)]

ghost use Rattle.std.specs.Prelude.{◌≡◌, true, ◌+◌, ◌*◌, ◌≤◌, length};
ghost use Rattle.std.proofs.Math.Option.{none};
ghost use Rattle.rules.specs.Limits.{most_statements, most_statements_large};
ghost use Rattle.rules.specs.Words.{message as said};
ghost use Rattle.rules.specs.Inputs as inputs;
ghost use Rattle.rules.specs.Refusals.{has_room};
ghost use Rattle.wire.specs.Meaning.{statement_of};
ghost use Rattle.store.specs.Layout.{size_in};
ghost use Rattle.store.specs.Decode.{rows, state_of};
ghost use Rattle.orders.specs.Orders.{standing};
ghost use Rattle.kept.specs.Said.{Sendable};
ghost use Rattle.acts.specs.Works.{Formed, Works};
ghost use Rattle.turns.specs.Ballots.{Listed};

use fields::Name;
use settings::Settings;
use store::Station;
use wire::{Message, Statement};

// Where it is due, the station blames its view: to all, and into the mask, which may be full then.
pub fn complain(store: &mut [u8], out: &mut [u8], at: usize, votes: usize) -> usize
    requires { (Formed store.old) × (at + 37 ≤ length out.old) × (votes ≡ inputs.votes (state_of store.old)) }
    ensures { Works (inputs.complain (state_of store.old)) out.old at store.new out.new result }
{
    let station = Station::load(store);
    if !moments::overdue_at(store, station, station.clock, votes) {
        return at;
    }
    let settings = station.settings;
    let own = settings.own;
    let blame = Message::Blame {
        view: station.view,
        author: own as u8,
    };
    let next = effects::to_all(out, at, blame);
    acts::blaming(store, out, next, station.view, settings::only(own) as u16)
}

// The new-view that the leader makes from the highest certificate of an earlier view.
pub fn own_new_view(store: &[u8]) -> Statement
    requires { (Formed store.now) × (inputs.leads (state_of store.now) ≡ true) }
    ensures { (said (statement_of result none) ≡ inputs.own_new_view (state_of store.now)) × (Sendable (state_of store.now).settings (said (statement_of result none))) }
{
    let station = Station::load(store);
    let settings = station.settings;
    let best = certificates::highest(store, station.view);
    let name = best.name;
    let link = Name {
        first: 0,
        second: 0,
        third: 0,
        fourth: best.view as u64,
    };
    Statement {
        is_new_view: true,
        view: station.view,
        height: best.height,
        name,
        link,
        mask: best.mask,
        author: settings.own as u8,
    }
}

// At its moment the leader makes a new-view, handled as received.
pub fn lead(store: &mut [u8], out: &mut [u8], at: usize) -> usize
    requires { (Formed store.old) × (has_room (inputs.lead (state_of store.old)).now ≡ true) × (at + 200 ≤ length out.old) }
    ensures { Works (inputs.lead (state_of store.old)) out.old at store.new out.new result }
{
    let station = Station::load(store);
    if !moments::leads_at(store, station, station.clock) {
        return at;
    }
    let x = own_new_view(store);
    let plan = plans::planned(store, x);
    answers::statement(store, out, at, x, plan)
}

// The next view is entered, with the highest certificate as its lock, which goes to the new leader.
fn entered(store: &mut [u8], out: &mut [u8], at: usize) -> usize
    requires { (Formed store.old) × (inputs.enters_now (state_of store.old) ≡ true) × (at + 62 ≤ length out.old) }
    ensures { Works (inputs.entered (state_of store.old)) out.old at store.new out.new result }
{
    let station = Station::load(store);
    let settings = station.settings;
    let view = station.view + 1;
    let lock = certificates::highest(store, view);
    records::enter(store, view, lock);
    let to = settings.leader(view as u64);
    if to == settings.own {
        return at;
    }
    let name = lock.name;
    let status = Message::Status {
        height: lock.height,
        name,
        cert: lock.view,
        mask: lock.mask,
    };
    effects::to_one(out, at, to as u8, status)
}

// Votes on the statements whose places stand in a table, in its order.
fn vote_in_order(store: &mut [u8], out: &mut [u8], at: usize, order: &[u16], count: usize) -> usize
    requires { Listed store.old order.now count at (length out.old) }
    ensures { Works (inputs.voting_all (rows (standing store.old order.now) 0 count) (state_of store.old)) out.old at store.new out.new result }
{
    let mut next = at;
    for j in 0..count {
        let place = usize::from(order[j]);
        let x = store::statement_at(store, place);
        let tally = store::find_tally(store, words::own_block(x, 0));
        next = ballots::voting(store, out, next, place, x, tally);
    }
    next
}

// What the station finds in the view that it entered: a full blame mask or a conflict, and quits, or statements to vote on.
fn arrive(store: &mut [u8], out: &mut [u8], at: usize, order: &mut [u16]) -> usize
    requires { (Formed store.old) × (at + 160 * most_statements (size_in store.old) ≤ length out.old) × (most_statements_large ≤ length order.old) }
    ensures { Works (inputs.arrive (state_of store.old)) out.old at store.new out.new result }
{
    let station = Station::load(store);
    let view = station.view;
    if acts::blame_full(store, view) {
        return acts::quit_with_set(store, out, at, view);
    }
    match search::find_pair(store, view) {
        Some((i, j)) => {
            let earlier = store::statement_at(store, i);
            let later = store::statement_at(store, j);
            acts::quit_with_pair(store, out, at, earlier, later)
        }
        None => {
            let count = orders::in_order(store, view, order);
            vote_in_order(store, out, at, order, count)
        }
    }
}

// A waiting station whose wait is over enters the next view.
pub fn enter(store: &mut [u8], out: &mut [u8], at: usize) -> usize
    requires { (Formed store.old) × (at + 62 + 160 * most_statements (size_in store.old) ≤ length out.old) }
    ensures { Works (inputs.enter (state_of store.old)) out.old at store.new out.new result }
{
    if !moments::enters_now(store) {
        return at;
    }
    let next = entered(store, out, at);
    let mut order = [0u16; Settings::MOST_STATEMENTS_LARGE];
    arrive(store, out, next, &mut order)
}
