// When the parts of a tick are due, by the numbers of a loaded station: its blame, the leader's new-view, the entry into the next view.
// The store is only read.
#![tactic(auto)]

ghost use Rattle.std.specs.Prelude.{◌≡◌, ◌+◌, ◌^◌, ◌≤◌, ◌<◌, eqb};
ghost use Rattle.rules.specs.Inputs as inputs;
ghost use Rattle.store.specs.Decode.{state_of, Form};
ghost use Rattle.store.specs.Meaning.{Loads};
ghost use Rattle.acts.specs.Works.{Formed};

use store::{Phase, Station};

// Whether the station is in a view.
fn is_in_view(store: &[u8], station: Station) -> bool
    requires { (Form store.now) × (Loads station store.now) }
    ensures { result ≡ inputs.is_in station.view (state_of store.now) }
{
    matches!(station.phase, Phase::InView)
}

// Whether the station's own blame is due at a clock, by how many proposes of its view it voted for.
pub fn overdue_at(store: &[u8], station: Station, clock: u32, votes: usize) -> bool
    requires { (Formed store.now) × (Loads station store.now) × (station.entry ≤ clock) × (votes ≡ inputs.votes (state_of store.now)) }
    ensures { result ≡ inputs.overdue (inputs.with_clock clock (state_of store.now)) }
{
    if !is_in_view(store, station) {
        return false;
    }
    let settings = station.settings;
    let wait = (2 * votes as u64 + 6) * settings.delay + 2;
    if ((clock - station.entry) as u64) < wait {
        return false;
    }
    let blames = store::blame_at(store, station.view as usize - 1);
    !settings::holds(blames as u64, settings.own)
}

// Whether the station is in a view and leads it.
fn leads_in(store: &[u8], station: Station) -> bool
    requires { (Formed store.now) × (Loads station store.now) }
    ensures { result ≡ inputs.leads (state_of store.now) }
{
    if !is_in_view(store, station) {
        return false;
    }
    let settings = station.settings;
    settings.leader(station.view as u64) == settings.own
}

pub fn leads(store: &[u8]) -> bool
    requires { Formed store.now }
    ensures { result ≡ inputs.leads (state_of store.now) }
{
    let station = Station::load(store);
    leads_in(store, station)
}

// Whether the clock is one tick past a wait, so that what was due at its end has come.
fn is_past(clock: u32, start: u32, wait: u64) -> bool
    requires { wait < 2 ^ 32 }
    ensures { result ≡ eqb clock (start + wait + 1) }
{
    clock as u64 == start as u64 + wait + 1
}

// Whether a clock is the leader's moment to make a new-view.
pub fn leads_at(store: &[u8], station: Station, clock: u32) -> bool
    requires { (Formed store.now) × (Loads station store.now) }
    ensures { result ≡ inputs.leads_now (inputs.with_clock clock (state_of store.now)) }
{
    let settings = station.settings;
    if !is_past(clock, station.entry, 2 * settings.delay) {
        return false;
    }
    leads_in(store, station)
}

// Whether a waiting station's wait is over at a clock.
pub fn enters_at(store: &[u8], station: Station, clock: u32) -> bool
    requires { (Formed store.now) × (Loads station store.now) }
    ensures { result ≡ inputs.enters_now (inputs.with_clock clock (state_of store.now)) }
{
    let settings = station.settings;
    let phase = station.phase;
    match phase {
        Phase::Waiting(quit) => {
            let is_over = is_past(clock, quit, settings.delay);
            ((station.view as u64) < store::last_view_in(store)) & is_over
        }
        _ => false,
    }
}

// Whether it is over.
pub fn enters_now(store: &[u8]) -> bool
    requires { Formed store.now }
    ensures { result ≡ inputs.enters_now (state_of store.now) }
{
    let station = Station::load(store);
    enters_at(store, station, station.clock)
}
