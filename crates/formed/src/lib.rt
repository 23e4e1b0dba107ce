// The check that a lent store is well formed, part by part: the form, then the heading and the statements, then the other tables.
// Any bytes of a store's length are taken; parts after the form know that the counts are in range.
#![tactic(auto)]

ghost use Rattle.std.specs.Prelude.{◌≡◌, ◌&&◌, length, replicate};
ghost use Rattle.rules.specs.Limits.{most_statements_large};
ghost use Rattle.rules.specs.WellFormed.{well_formed};
ghost use Rattle.settings.specs.Made.{settings_of};
ghost use Rattle.store.specs.Layout.{size_in, store_length};
ghost use Rattle.store.specs.Decode.{state_of, has_form};
ghost use Rattle.formed.specs.Ready.{Ready, tables_good, Telling};

use chains::Chains;
use settings::Settings;
use store::Station;

// Whether tallies, blame masks and log are well formed, where the statements are; and what the log tells.
fn tables_good(
    store: &[u8],
    station: Station,
    salt: u64,
    told: &mut [u16; Settings::MOST_STATEMENTS_LARGE],
) -> bool
    requires { Ready store.now station × (told.old ≡ replicate most_statements_large 0) }
    ensures { Telling (tables_good (settings_of station.settings) station.clock store.now) store.now result told.new }
{
    let settings = station.settings;
    let count = station.tallies;
    let mut hung = Chains::new();
    if !apart::good_and_apart(store, settings, station.clock, salt, count, &mut hung) {
        return false;
    }
    repeats::there_and_apart(store, salt, count, &hung, station.statements)
        & blames::all_good(store, settings)
        & linked::is_linked(store, station.logged, station.statements, told)
        & openers::few_opened(store, settings, count)
}

// Whether a store of the exact length is well formed; and if it is, what its log tells.
pub fn well_formed_told(store: &[u8], told: &mut [u16; Settings::MOST_STATEMENTS_LARGE]) -> bool
    requires { (length store.now ≡ store_length (size_in store.now)) × (told.old ≡ replicate most_statements_large 0) }
    ensures { Telling (has_form store.now && well_formed (state_of store.now)) store.now result told.new }
{
    let station = Station::load(store);
    if !form::has_form(store, station) {
        return false;
    }
    let salt = chains::salt(station.clock);
    let good = heading::header_good(station) & stated::all_good(store, station, station.statements);
    if !good {
        return false;
    }
    tables_good(store, station, salt, told)
}

// Whether a store of the exact length is well formed.
pub fn well_formed(store: &[u8]) -> bool
    requires { length store.now ≡ store_length (size_in store.now) }
    ensures { result ≡ (has_form store.now && well_formed (state_of store.now)) }
{
    let mut told = [0u16; Settings::MOST_STATEMENTS_LARGE];
    well_formed_told(store, &mut told)
}
