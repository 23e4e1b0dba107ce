// The commit stage of a tick: the log that the chains of the due statements make, as places of statements in small local tables.
// The store is only read; a caller shows that it has the form.
#![tactic(auto)]

ghost use Rattle.std.specs.Prelude.{◌≡◌, length, ◌^◌, ◌<◌, ◌≤◌, true};
ghost use Rattle.rules.specs.Lists.{keep};
ghost use Rattle.rules.specs.Limits.{most_statements, most_statements_large};
ghost use Rattle.rules.specs.WellFormed.{well_formed};
ghost use Rattle.rules.specs.Inputs.{commits};
ghost use Rattle.store.specs.Layout.{size_in, log_table, store_length, count_of};
ghost use Rattle.store.specs.Decode.{statements, statement_at, names, state_of, Form};
ghost use Rattle.store.specs.Meaning.{Loads};
ghost use Rattle.linked.specs.Told.{Told};
ghost use Rattle.glance.specs.Votes.{is_ripe};
ghost use Rattle.glance.specs.Looks.{Begun, ToldBelow, ToldIn};
ghost use Rattle.commit.specs.Outcome.{Settled, Joined, Committed};

use settings::Settings;
use store::{Phase, Station};
use walks::Reached;

// Whether statement i is a propose of the view that was voted for more than `wait` ticks ago.
fn is_due(store: &[u8], i: usize, view: u32, wait: u64, clock: u64) -> bool
    requires { (length store.now ≡ store_length (size_in store.now)) × (i < most_statements (size_in store.now)) × (wait < 2 ^ 32) }
    ensures { result ≡ is_ripe view wait clock (statement_at store.now i) }
{
    match glance::vote_in(store, i, view) {
        Some(vote) => u64::from(vote) + wait < clock,
        None => false,
    }
}

// Whether the last walk went through statement i, of the height `own`: its place stands in the table.
fn is_settled(chain: &[u16], height: usize, left: usize, own: usize, i: usize) -> bool
    requires { height ≤ length chain.now }
    ensures { Settled chain.now height left own i result }
{
    left < own && own <= height && glance::place_in(chain, own - 1) == i
}

// The chains of the due statements join the log, from the last place down to where the check told of the rest: the walk from the
// highest mostly goes through the others.
fn commit_due(
    store: &[u8],
    told: &[u16],
    count: usize,
    settled: usize,
    logged: usize,
    view: u32,
    wait: u64,
    clock: u64,
    gained: &mut [u16],
    chain: &mut [u16],
) -> Option<usize>
    requires { (Begun store.now told.now count wait) × (logged ≡ count_of log_table store.now) × (ToldBelow store.now told.now view wait clock settled) × (length gained.old ≡ most_statements_large) × (length chain.old ≡ most_statements_large) }
    ensures { Joined (commits (statements store.now) (keep (is_ripe view wait clock) (statements store.now)) (names store.now)) store.now gained.new result }
{
    let mut len = logged;
    let mut height: usize = 0;
    let mut left: usize = 0;
    for i in (settled..count).rev() {
        if !is_due(store, i, view, wait, clock) {
            continue;
        }
        if glance::is_told(store, told, i) {
            continue;
        }
        let own = store::height_at(store, i) as usize;
        if count < own {
            continue;
        }
        if is_settled(chain, height, left, own, i) {
            continue;
        }
        height = own;
        match walks::walk(store, told, count, i, chain) {
            Reached::Lacking(lowest) => left = lowest,
            Reached::Whole(known) => {
                left = 0;
                len = merging::join(store, logged, len, gained, chain, height, known)?;
            }
        }
    }
    Some(len)
}

// The commit stage of a tick from this store, where the check told of what is due below a place: the new log's length, its new names
// by place in the table, or nothing where a due commit differs from the log (refusal 7).
pub fn commits(
    store: &[u8],
    station: Station,
    told: &[u16],
    settled: usize,
    gained: &mut [u16],
) -> Option<usize>
    requires { (Form store.now) × (well_formed (state_of store.now) ≡ true) × (Loads station store.now) × (Told store.now told.now) × (ToldIn store.now told.now station settled) × (length gained.old ≡ most_statements_large) }
    ensures { Committed store.now gained.new result }
{
    let logged = station.logged;
    let phase = station.phase;
    let Phase::InView = phase else {
        return Some(logged);
    };
    let settings = station.settings;
    let wait = 2 * settings.delay;
    let clock = u64::from(station.clock) + 1;
    let mut chain = [0u16; Settings::MOST_STATEMENTS_LARGE];
    commit_due(
        store,
        told,
        station.statements,
        settled,
        logged,
        station.view,
        wait,
        clock,
        gained,
        &mut chain,
    )
}
