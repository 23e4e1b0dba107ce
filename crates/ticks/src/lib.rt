// A tick of a station that runs: what decides it is known before anything is written.
#![tactic(auto)]

ghost use Rattle.std.specs.Prelude.{◌≤◌, length};
ghost use Rattle.rules.specs.Limits.{least_out};
ghost use Rattle.rules.specs.Refusals.{tick};
ghost use Rattle.store.specs.Layout.{size_in};
ghost use Rattle.store.specs.Decode.{state_of};
ghost use Rattle.linked.specs.Told.{Told};
ghost use Rattle.glance.specs.Looks.{Seen};
ghost use Rattle.acts.specs.Works.{Formed};
ghost use Rattle.stops.specs.Answers.{Answers};
ghost use Rattle.moves.specs.Turns.{Calmly};
ghost use Rattle.ticks.specs.Decided.{Running};

use answer::Refusal;
use glance::Glance;
use settings::Settings;
use store::{Cause, Station};

// A tick that may do more than move the clock on: refused before anything is written, or done. Where it is calm the commits are all.
fn busy(
    store: &mut [u8],
    out: &mut [u8],
    station: Station,
    told: &[u16],
    glance: Glance,
    calm: bool,
) -> u64
    requires { (Running store.old station (length out.old)) × (Told store.old told.now) × (Seen store.old told.now station glance) × (Calmly store.old «calm») }
    ensures { Answers (tick (state_of store.old)) out.old store.new out.new result }
{
    let mut gained = [0u16; Settings::MOST_STATEMENTS_LARGE];
    let Some(len) = commit::commits(store, station, told, glance.settled, &mut gained) else {
        return stops::stop(store, Refusal::Split, Cause::Split);
    };
    let clock = station.clock + 1;
    if calm {
        return moves::growing(store, out, clock, &gained, len) as u64;
    }
    if !moves::next_fits(store, station) {
        return stops::stop(store, Refusal::Full, Cause::Full);
    }
    moves::turning(store, out, clock, &gained, len, glance.votes) as u64
}

// A tick of a well-formed store, with what the check told of its log: refused before anything is written, or done.
pub fn ticked(
    store: &mut [u8],
    out: &mut [u8],
    told: &[u16; Settings::MOST_STATEMENTS_LARGE],
) -> u64
    requires { (Formed store.old) × (least_out (size_in store.old) ≤ length out.old) × (Told store.old told.now) }
    ensures { Answers (tick (state_of store.old)) out.old store.new out.new result }
{
    let station = Station::load(store);
    if !stops::is_running(store, station) {
        return Refusal::Stopped.answer();
    }
    if station.clock as u64 == Settings::LAST_CLOCK {
        return stops::stop(store, Refusal::Clock, Cause::Clock);
    }
    let glance = glance::look(store, station, told);
    let calm = moves::is_calm(store, station, glance.votes);
    if calm & (station.statements <= glance.settled) {
        records::set_clock(store, station.clock + 1);
        return 0;
    }
    busy(store, out, station, told, glance, calm)
}
