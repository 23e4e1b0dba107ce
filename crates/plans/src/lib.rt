// What comes of a statement, worked out before anything is written: one search each for it and its two tallies.
#![tactic(auto)]

ghost use Rattle.std.specs.Prelude.{◌≡◌};
ghost use Rattle.std.proofs.Math.Option.{none};
ghost use Rattle.rules.specs.Words.{message as said};
ghost use Rattle.wire.specs.Meaning.{statement_of};
ghost use Rattle.store.specs.Decode.{state_of};
ghost use Rattle.kept.specs.Said.{Sendable};
ghost use Rattle.acts.specs.Works.{Formed};
ghost use Rattle.plans.specs.Plans.{new_plan, planned, fits};

use store::Station;
use wire::Statement;

// What comes of a statement: a repeat; a new one, with the places of the tallies of its certificate and of its own block;
// or that no record is free.
#[derive(Clone, Copy)]
pub enum Plan {
    Repeat,
    New(Option<usize>, Option<usize>),
    Full,
}

// What comes of a new statement, by whether there is room.
fn new_plan(room: bool, certified: Option<usize>, own: Option<usize>) -> Plan
    ensures { result ≡ new_plan room certified own }
{
    if room {
        return Plan::New(certified, own);
    }
    Plan::Full
}

// What comes of a statement, by one search each for it and its two tallies.
pub fn planned(store: &[u8], x: Statement) -> Plan
    requires { (Formed store.now) × (Sendable (state_of store.now).settings (said (statement_of x none))) }
    ensures { result ≡ planned (statement_of x none) (state_of store.now) }
{
    let None = store::find_statement(store, x) else {
        return Plan::Repeat;
    };
    let certificate = words::certificate_of(x);
    let certified = storing::find_certificate(store, certificate);
    let block = words::own_block(x, 0);
    let own = store::find_tally(store, block);
    let records = storing::needed(certificate, certified) + storing::needed(block, own);
    let station = Station::load(store);
    let room = (station.statements < store::most_statements_in(store))
        & (station.tallies + records <= store::most_tallies_in(store));
    new_plan(room, certified, own)
}

// Whether there is room for what comes of a statement.
pub fn fits(plan: Plan) -> bool
    ensures { result ≡ fits plan }
{
    !matches!(plan, Plan::Full)
}
