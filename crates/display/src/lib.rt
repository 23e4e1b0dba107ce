// The call for the wall display: each propose voted for in the view now held and not yet in the log, with the ticks left until its commit is due.
// The store is only read, and every byte left in the out buffer is said.
#![tactic(auto)]

ghost use Rattle.std.specs.Prelude.{◌≡◌, ◌++◌, ◌+◌, ◌≤◌, ◌<◌, length};
ghost use Rattle.std.proofs.Math.IntN.{sub_ℕ};
ghost use Rattle.rules.specs.Limits.{least_out};
ghost use Rattle.rules.specs.Lists.{unbe};
ghost use Rattle.rules.specs.Messages.{field};
ghost use Rattle.rules.specs.Words.{in_view};
ghost use Rattle.rules.specs.Display.{is_logged, showing, display, twos, entries};
ghost use Rattle.fields.specs.Names.{name_of};
ghost use Rattle.outgoing.specs.Wrote.{Says};
ghost use Rattle.store.specs.Layout.{size_in, statement_table, log_table, count_of};
ghost use Rattle.store.specs.Decode.{statement_at, names, state_of, Form};
ghost use Rattle.store.specs.Meaning.{course_of, Loads};
ghost use Rattle.calls.specs.Calls.{Gives};
ghost use Rattle.display.specs.Called.{display_called};

use answer::Refusal;
use fields::Name;
use store::{Phase, Station};

// Whether the log has the name at the height.
fn is_logged(store: &[u8], logged: usize, height: u32, name: Name) -> bool
    requires { (Form store.now) × (logged ≡ count_of log_table store.now) }
    ensures { result ≡ is_logged (names store.now) height (name_of name) }
{
    let at = height as usize;
    if at == 0 {
        return false;
    }
    if logged < at {
        return false;
    }
    name == store::name_at(store, at - 1)
}

// Due clock minus present clock, in two's complement.
fn ticks_left(due: u64, clock: u64) -> u64
    ensures { result ≡ twos (sub_ℕ due clock) }
{
    if clock <= due {
        return due - clock;
    }
    u64::MAX - (clock - due - 1)
}

// Tag 13: a propose's height, its name and its ticks left.
fn show(out: &mut [u8], at: usize, height: u32, name: Name, left: u64) -> usize
    requires { at + 47 ≤ length out.old }
    ensures { Says out.old at (field 0x13 (unbe 4 height ++ unbe 32 (name_of name) ++ unbe 8 left)) out.new result }
{
    fields::put(out, at, 3, 0x13_002c);
    fields::put(out, at + 3, 4, u64::from(height));
    fields::put_name(out, at + 7, name);
    fields::put(out, at + 39, 8, left);
    at + 47
}

// Statement i, where it is to be shown.
fn show_one(store: &[u8], station: Station, i: usize, out: &mut [u8], at: usize) -> usize
    requires { (Form store.now) × (Loads station store.now) × (course_of station.phase ≡ in_view) × (i < count_of statement_table store.now) × (at + 47 ≤ length out.old) }
    ensures { Says out.old at (entries (showing (state_of store.now) (statement_at store.now i))) out.new result }
{
    let Some(vote) = glance::vote_in(store, i, station.view) else {
        return at;
    };
    let x = store::statement_at(store, i);
    let name = x.name;
    if is_logged(store, station.logged, x.height, name) {
        return at;
    }
    let settings = station.settings;
    let due = u64::from(vote) + 1 + 2 * settings.delay;
    let left = ticks_left(due, u64::from(station.clock));
    show(out, at, x.height, name, left)
}

// All that is shown, by place; answers how many bytes that is.
fn show_all(store: &[u8], out: &mut [u8]) -> usize
    requires { (Form store.now) × (least_out (size_in store.now) ≤ length out.old) }
    ensures { Says out.old 0 (entries (display (state_of store.now))) out.new result }
{
    let station = Station::load(store);
    let Phase::InView = station.phase else {
        return 0;
    };
    let mut next: usize = 0;
    for i in 0..station.statements {
        next = show_one(store, station, i, out, next);
    }
    next
}

// The wall display of a station, or why the buffers are refused.
#[unsafe(no_mangle)]
pub extern "C" fn station_display(store: &[u8], out: &mut [u8]) -> u64
    ensures { Gives (display_called store.now out.old) result store.now out.new }
{
    if !store::is_whole(store) {
        return Refusal::Lengths.answer();
    }
    if out.len() < store::least_out_in(store) {
        return Refusal::Lengths.answer();
    }
    if !formed::well_formed(store) {
        return Refusal::Malformed.answer();
    }
    show_all(store, out) as u64
}
