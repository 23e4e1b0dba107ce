// A tick of a station held by value, for the plain engine: the refusals in their order, each function straight from its definition.
#![tactic(auto)]

ghost use Rattle.std.specs.Prelude.{◌≡◌, true, ◌<◌, ◌≤◌, length};
ghost use Rattle.rules.specs.Limits.{last_clock, least_out_small};
ghost use Rattle.rules.specs.Refusals as refusals;
ghost use Rattle.plain_tables.specs.Meaning.{names, state};
ghost use Rattle.plain_acts.specs.Works.{Worked};
ghost use Rattle.plain_messages.specs.Whole.{Whole};
ghost use Rattle.plain_turns.specs.Turns.{Turned, Answered};
ghost use Rattle.plain_ticks.specs.Ticks.{clocked, halting, Keepable, turning, ticking};

use plain_acts::Work;
use plain_tables::{Cause, Engine, Names, Phase};
use plain_turns::Turn;
use settings::Settings;

// The station at another clock.
fn with_clock(mut e: Engine, clock: u32) -> Engine
    ensures { result ≡ clocked clock e }
{
    e.clock = clock;
    e
}

// "Phase: stopped".
fn halted(number: u64, why: Cause, e: Engine) -> Turn
    ensures { result ≡ halting number why e }
{
    plain_turns::refused(number, e.with_phase(Phase::Stopped(why)))
}

// The new log, then blame, the leader's new-view and the entry of a view.
fn turned(e: Engine, log: Names, out: &mut [u8]) -> Work
    requires { (Keepable e log) × (least_out_small ≤ length out.old) }
    ensures { Worked (turning (names log) (state e)) out.old 0 result out.new }
{
    let logged = plain_logs::logging(e, log, out, 0);
    let complained = plain_blames::complain(logged.engine, out, logged.at);
    let led = plain_leads::lead(complained.engine, out, complained.at);
    plain_arrivals::enter(led.engine, out, led.at)
}

// "In order: clock plus 1. Commit .. Then .. blame. Then .. new-view. .. enters"; 7 where a due commit differs from the log, then 6.
fn ticked(e: Engine, out: &mut [u8]) -> Turn
    requires { (Whole e) × (refusals.running (state e) ≡ true) × (e.clock < last_clock) × (least_out_small ≤ length out.old) }
    ensures { Turned (ticking (state e)) result out.new }
{
    let later = with_clock(e, e.clock + 1);
    let Some(log) = plain_logs::commits(later) else {
        return halted(7, Cause::Split, e);
    };
    let w = turned(later, log, out);
    plain_turns::if_room(e, w)
}

// A tick: 3, then 8, "tick at clock 4,000,000,000", 7, "a due commit differs from the log at a height", and 6.
pub fn tick(e: Engine, out: &mut [u8]) -> Turn
    requires { (Whole e) × (least_out_small ≤ length out.old) }
    ensures { Answered (refusals.tick (state e)) result out.new }
{
    if !plain_turns::running(e) {
        return plain_turns::refused(3, e);
    }
    if e.clock as u64 == Settings::LAST_CLOCK {
        return halted(8, Cause::Clock, e);
    }
    ticked(e, out)
}
