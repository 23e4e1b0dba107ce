// A vote for a stored statement: noted in the store, joined to its tally, and written behind the statement.
#![tactic(auto)]

ghost use Rattle.std.specs.Prelude.{◌≡◌, ◌+◌, ◌≤◌, length};
ghost use Rattle.std.proofs.Math.Option.{none};
ghost use Rattle.rules.specs.Words.{own_block};
ghost use Rattle.rules.specs.Inputs as inputs;
ghost use Rattle.wire.specs.Meaning.{statement_of};
ghost use Rattle.store.specs.Decode.{state_of, tallies};
ghost use Rattle.store.specs.Searches.{block_at};
ghost use Rattle.acts.specs.Works.{Formed, Works};
ghost use Rattle.acts.specs.Answers.{Stands};

use store::Station;
use tallies::Voters;
use wire::{Message, Statement};

// Votes for the statement at a place, with its own block's tally as found, unless its certificate ranks below the lock. The tally is
// there, so the vote opens none.
pub fn voting(
    store: &mut [u8],
    out: &mut [u8],
    at: usize,
    place: usize,
    x: Statement,
    tally: Option<usize>,
) -> usize
    requires { (Formed store.old) × (Stands store.old place x) × (tally ≡ block_at (own_block (statement_of x none) 0) (tallies store.old)) × (at + 160 ≤ length out.old) }
    ensures { Works (inputs.voting (statement_of x none) (state_of store.old)) out.old at store.new out.new result }
{
    let station = Station::load(store);
    let lock = station.lock;
    if words::below_lock(x, lock) {
        return at;
    }
    let settings = station.settings;
    let own = settings.own;
    records::note_vote(store, place, station.clock);
    joining::join_found(store, words::own_block(x, 0), tally, Voters::One(own));
    let name = x.name;
    let vote = Message::Vote {
        view: x.view,
        height: x.height,
        name,
        author: own as u8,
    };
    acts::send_both(out, at, Message::Stated(x), vote)
}
