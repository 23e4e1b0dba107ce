// The log and the state, as the store has them.
#![tactic(auto)]

ghost use Rattle.std.specs.Prelude.{◌≡◌, length, ◌/◌, ◌<◌};
ghost use Rattle.store.specs.Layout.{small_length};

use page::Page;
use said::show;
use settings::Settings;
use store::{Cause, Phase, Station};
use words::Certificate;

// A store of the exact length.
pub type Store = [u8; store::LENGTH];

// A store of zeros, which is none that is well formed. The contract gives only the length.
pub fn no_store() -> Store
    ensures { small_length ≡ length result }
{
    [0; store::LENGTH]
}

// Whether a store is well formed.
fn is_good(store: &Store) -> bool {
    formed::well_formed(store)
}

// The clock of a store.
pub fn clock(store: &Store) -> u64 {
    let station = Station::load(store);
    u64::from(station.clock)
}

// How many stations the group of a store has.
pub fn stations(store: &Store) -> u64 {
    let station = Station::load(store);
    station.settings.n
}

// The bytes of a name, and where the log's names begin in a store.
pub const NAME: usize = 32;

const LOG: usize = store::LENGTH - NAME * Settings::MOST_STATEMENTS;

// The log of a store.
pub fn log(rt: &impl Print, line: u64, store: &Store) {
    if !is_good(store) {
        names(rt, line, 2, 0, store);
        return;
    }
    let station = Station::load(store);
    let bytes = &store[..];
    names(rt, line, 0, station.logged, &bytes[LOG..]);
}

// A refusal, or so many names that stand one behind another, lowest height first.
pub fn names(rt: &impl Print, line: u64, refusal: u64, count: usize, names: &[u8]) {
    let mut page = Page::new(rt);
    show::start(&mut page, line, b"log");
    logged(&mut page, refusal, count, names);
    page.finish();
}

fn logged<P: Print>(page: &mut Page<P>, refusal: u64, count: usize, names: &[u8]) {
    if refusal != 0 {
        show::refused(page, refusal);
        return;
    }
    spell::number(page, b": ", count as u64);
    page.say(b" logged\n");
    for i in 0..count.min(names.len() / NAME) {
        entry(page, names, i);
    }
}

// The entry at height i + 1.
fn entry<P: Print>(page: &mut Page<P>, names: &[u8], i: usize)
    requires { i < length names.now / 32 }
{
    page.say(b"  ");
    let name = fields::get_name(names, NAME * i);
    spell::committed(page, i as u64 + 1, name);
    page.put(b'\n');
}

// The state: phase, view, entry and clock; then the lock as the status that says it, and when it was certified.
pub fn state(rt: &impl Print, line: u64, store: &Store) {
    let mut page = Page::new(rt);
    show::start(&mut page, line, b"state");
    standing(&mut page, store);
    page.finish();
}

// The state of a store that is well formed.
fn standing<P: Print>(page: &mut Page<P>, store: &Store) {
    if !is_good(store) {
        show::refused(page, 2);
        return;
    }
    let station = Station::load(store);
    phase(page, station.phase, u64::from(station.view));
    spell::number(page, b", entered at ", u64::from(station.entry));
    spell::number(page, b", clock ", u64::from(station.clock));
    lock(page, station.lock);
    page.say(b"  lock certified");
    show::certified(page, since(store, station.lock));
}

// The phase, of a view.
fn phase<P: Print>(page: &mut Page<P>, phase: Phase, view: u64) {
    match phase {
        Phase::InView => spell::number(page, b": in view ", view),
        Phase::Waiting(quit) => {
            spell::number(page, b": waiting after view ", view);
            spell::number(page, b", quit at ", u64::from(quit));
        }
        Phase::Stopped(cause) => match cause {
            Cause::Full => spell::number(page, b": stopped, full, in view ", view),
            Cause::Split => spell::number(page, b": stopped, split, in view ", view),
            Cause::Clock => spell::number(page, b": stopped, clock, in view ", view),
        },
    }
}

// When the lock was certified, as a host is told it.
fn since(store: &Store, lock: Certificate) -> u64 {
    let mut name = [0u8; 32];
    fields::put_name(&mut name, 0, lock.name);
    certified::station_certified(store, u64::from(lock.view), u64::from(lock.height), &name)
}

// The lock.
fn lock<P: Print>(page: &mut Page<P>, lock: Certificate) {
    page.say(b"\n  lock: ");
    spell::status(page, lock.height, lock.name, lock.view, lock.mask);
    page.put(b'\n');
}
