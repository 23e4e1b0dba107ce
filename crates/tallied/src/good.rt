// The tallies of a store: each allowed for these settings.
ghost use Rattle.std.specs.Prelude.{◌≡◌, ◌+◌, ◌-◌, ◌≤◌, ◌<◌, length};
ghost use Rattle.rules.specs.Limits.{most_stations, most_tallies};
ghost use Rattle.rules.specs.Lists.{all};
ghost use Rattle.rules.specs.WellFormed.{opener_good, reached_good, tally_good};
ghost use Rattle.settings.specs.Made.{settings_of};
ghost use Rattle.store.specs.Layout.{size_in, store_length, tally_table};
ghost use Rattle.tallies.specs.Values.{told};
ghost use Rattle.store.specs.Decode.{tally_at, tallies};
ghost use Rattle.form.specs.Lent.{Counts};

use super::block;
use settings::Settings;
use store::{HEIGHT, NAME, VOTERS};

// Whether who opened a tally, if an author did, is one of these stations and among its voters.
fn opener_good(settings: Settings, mask: u16, opener: Option<u8>) -> bool
    requires { settings.n ≤ most_stations }
    ensures { result ≡ opener_good (settings_of settings) mask (told opener) }
{
    let Some(voter) = opener else {
        return true;
    };
    let author = u64::from(voter);
    if settings.n <= author {
        return false;
    }
    settings::holds(u64::from(mask), author)
}

// Whether the clock of the first quorum is there exactly when a quorum is, and is not after the present one.
fn reached_good(settings: Settings, clock: u32, mask: u16, reached: Option<u32>) -> bool
    ensures { result ≡ reached_good (settings_of settings) clock mask (told reached) }
{
    let certified = settings.quorum(u64::from(mask));
    let Some(first) = reached else {
        return !certified;
    };
    if !certified {
        return false;
    }
    first <= clock
}

// Whether a tally is of a view and a block that are allowed, with a mask of these stations, opened by nobody or by one of its voters,
// and keeps a clock as it should: field by field where it lies, until one is bad.
fn tally_good(store: &[u8], settings: Settings, clock: u32, i: usize) -> bool
    requires { (length store.now ≡ store_length (size_in store.now)) × (i < most_tallies (size_in store.now)) × (settings.n ≤ most_stations) }
    ensures { result ≡ tally_good (settings_of settings) clock (tally_at store.now i) }
{
    let at = store::tally_place(store, i);
    if !clauses::view_allowed(settings, fields::get(store, at, 4)) {
        return false;
    }
    if !block::block_good(store, at + NAME, fields::get(store, at + HEIGHT, 4)) {
        return false;
    }
    let mask = fields::get(store, at + VOTERS, 2) as u16;
    if settings::only(settings.n) <= u64::from(mask) {
        return false;
    }
    if !opener_good(settings, mask, store::opener_at(store, i)) {
        return false;
    }
    reached_good(settings, clock, mask, store::reached_at(store, i))
}

// Whether every tally is good.
pub fn all_good(store: &[u8], settings: Settings, clock: u32, count: usize) -> bool
    requires { Counts tally_table store.now count × (settings.n ≤ most_stations) }
    ensures { result ≡ all (tally_good (settings_of settings) clock) (tallies store.now) }
{
    for i in 0..count {
        if !tally_good(store, settings, clock, i) {
            return false;
        }
    }
    true
}
