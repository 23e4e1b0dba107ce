// The entry of a view on a station held by value, for the plain engine, straight from its definition.
#![tactic(auto)]

ghost use Rattle.std.specs.Prelude.{◌≡◌, ◌&&◌, ◌+◌, ◌≤◌, ltb, eqb, length};
ghost use Rattle.rules.specs.Limits.{last_view, last_view_small, most_delay};
ghost use Rattle.rules.specs.Messages.{outgoing};
ghost use Rattle.rules.specs.Inputs as inputs;
ghost use Rattle.settings.specs.Made.{settings_of};
ghost use Rattle.outgoing.specs.Wrote.{Says};
ghost use Rattle.plain_words.specs.Meaning.{certificate_of};
ghost use Rattle.plain_tables.specs.Meaning.{state, Sized};
ghost use Rattle.plain_acts.specs.Works.{Worked};
ghost use Rattle.plain_entries.specs.Entries.{next_view};

use plain_acts::Work;
use plain_tables::{Engine, Phase};
use plain_words::Certificate;
use settings::Settings;
use wire::Message;

// "Below view 32", "at exactly quit+D+1".
fn is_time(settings: Settings, view: u32, clock: u32, quit: u32) -> bool
    requires { settings.delay ≤ most_delay }
    ensures { result ≡ (ltb view (last_view (settings_of settings).size) && eqb clock (quit + settings.delay + 1)) }
{
    let most = settings.last_view();
    let end = quit as u64 + settings.delay + 1;
    let now = clock as u64;
    let held = view as u64;
    (held < most) & (now == end)
}

// "A waiting station below view 32 enters the next at exactly quit+D+1".
pub fn enters_now(e: Engine) -> bool
    requires { Sized e }
    ensures { result ≡ inputs.enters_now (state e) }
{
    let settings = e.settings;
    let phase = e.phase;
    match phase {
        Phase::InView => false,
        Phase::Waiting(quit) => is_time(settings, e.view, e.clock, quit),
        Phase::Stopped(_) => false,
    }
}

// "Locks on the highest certificate of an earlier view".
fn next_lock(e: Engine) -> Certificate
    requires { (Sized e) × (e.view ≤ last_view_small) }
    ensures { certificate_of result ≡ inputs.next_lock (state e) }
{
    let settings = e.settings;
    let tallies = e.tallies;
    tallies.highest(settings, e.view + 1)
}

// "Sends it as status to the new leader unless it is the leader".
fn report(e: Engine, lock: Certificate, out: &mut [u8], at: usize) -> usize
    requires { (Sized e) × (e.view ≤ last_view_small) × (certificate_of lock ≡ inputs.next_lock (state e)) × (at + 200 ≤ length out.old) }
    ensures { Says out.old at (outgoing (inputs.report (state e))) out.new result }
{
    let settings = e.settings;
    let next = e.view as u64 + 1;
    let to = settings.leader(next);
    if to == settings.own {
        return at;
    }
    let name = lock.name;
    let status = Message::Status {
        height: lock.height,
        name,
        cert: lock.view,
        mask: lock.mask,
    };
    effects::to_one(out, at, to as u8, status)
}

// The station in the next view, with this lock.
fn entering(e: Engine, lock: Certificate) -> Engine
    requires { e.view ≤ last_view_small }
    ensures { result ≡ next_view lock e }
{
    let mut next = e.with_phase(Phase::InView);
    next.view = e.view + 1;
    next.entry = e.clock;
    next.lock = lock;
    next
}

// The next view is entered: what is locked on, and what is said of it.
pub fn entered(e: Engine, out: &mut [u8], at: usize) -> Work
    requires { (Sized e) × (e.view ≤ last_view_small) × (at + 200 ≤ length out.old) }
    ensures { Worked (inputs.entered (state e)) out.old at result out.new }
{
    let lock = next_lock(e);
    let next = report(e, lock, out, at);
    let engine = entering(e, lock);
    Work { engine, at: next }
}
