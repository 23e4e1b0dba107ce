// What a tick does once it is decided, and what is asked before: whether its new-view has room, and whether anything but the log is due.
#![tactic(auto)]

ghost use Rattle.std.specs.Prelude.{◌≡◌, true, ◌+◌, ◌*◌, ◌≤◌, length};
ghost use Rattle.rules.specs.Limits.{most_statements};
ghost use Rattle.rules.specs.Inputs as inputs;
ghost use Rattle.rules.specs.Refusals.{has_room};
ghost use Rattle.store.specs.Layout.{size_in};
ghost use Rattle.store.specs.Decode.{state_of};
ghost use Rattle.store.specs.Meaning.{Loads};
ghost use Rattle.acts.specs.Works.{Formed, Works};
ghost use Rattle.reports.specs.Gains.{grown_log};
ghost use Rattle.moves.specs.Turns.{later, moving, growing, turning, Clear, Calmly};

use store::Station;

// Whether there is room for the leader's new-view, if it makes one at the next clock.
pub fn next_fits(store: &[u8], station: Station) -> bool
    requires { (Formed store.now) × (Loads station store.now) }
    ensures { result ≡ has_room (inputs.lead (later (state_of store.now))).now }
{
    if !moments::leads_at(store, station, station.clock + 1) {
        return true;
    }
    let x = turns::own_new_view(store);
    plans::fits(plans::planned(store, x))
}

// What follows the commits of a tick: blame, the leader's new-view, entering a view.
fn moving(store: &mut [u8], out: &mut [u8], at: usize, votes: usize) -> usize
    requires { (Formed store.old) × (has_room (inputs.lead (state_of store.old)).now ≡ true) × (at + 299 + 160 * most_statements (size_in store.old) ≤ length out.old) × (votes ≡ inputs.votes (state_of store.old)) }
    ensures { Works (moving (state_of store.old)) out.old at store.new out.new result }
{
    let complained = turns::complain(store, out, at, votes);
    let led = turns::lead(store, out, complained);
    turns::enter(store, out, led)
}

// The clock moves on and the new log is written.
pub fn growing(store: &mut [u8], out: &mut [u8], clock: u32, gained: &[u16], len: usize) -> usize
    requires { Clear store.old gained.now clock len (length out.old) }
    ensures { Works (growing (grown_log store.old gained.now len) (state_of store.old)) out.old 0 store.new out.new result }
{
    records::set_clock(store, clock);
    reports::logging(store, out, 0, gained, len)
}

// The same; then what else is due.
pub fn turning(
    store: &mut [u8],
    out: &mut [u8],
    clock: u32,
    gained: &[u16],
    len: usize,
    votes: usize,
) -> usize
    requires { (Clear store.old gained.now clock len (length out.old)) × (votes ≡ inputs.votes (state_of store.old)) }
    ensures { Works (turning (grown_log store.old gained.now len) (state_of store.old)) out.old 0 store.new out.new result }
{
    let reported = growing(store, out, clock, gained, len);
    moving(store, out, reported, votes)
}

// Whether nothing but the log is due at the next clock: no blame, no new-view and no view to enter.
pub fn is_calm(store: &[u8], station: Station, votes: usize) -> bool
    requires { (Formed store.now) × (Loads station store.now) × (votes ≡ inputs.votes (state_of store.now)) }
    ensures { Calmly store.now result }
{
    let next = station.clock + 1;
    if moments::overdue_at(store, station, next, votes) {
        return false;
    }
    !moments::leads_at(store, station, next) & !moments::enters_at(store, station, next)
}
