// A fresh store.
#![tactic(auto)]

ghost use Rattle.std.specs.Prelude.{◌≡◌};
ghost use Rattle.rules.specs.Words.{fresh};
ghost use Rattle.settings.specs.Made.{settings_of};
ghost use Rattle.store.specs.Decode.{header_values};
ghost use Rattle.store.specs.Meaning.{header_of};
ghost use Rattle.fresh.specs.Fresh.{answer, freshly};

use answer::Refusal;
use settings::Settings;
use store::{Phase, Station};
use words::Certificate;

// The station that a store starts with.
fn starting(settings: Settings) -> Station
    ensures { header_of result ≡ header_values (fresh (settings_of settings)) }
{
    let lock = Certificate::genesis();
    Station {
        settings,
        phase: Phase::InView,
        view: Settings::FIRST_VIEW as u32,
        entry: 0,
        clock: 0,
        lock,
        statements: 0,
        tallies: 0,
        logged: 0,
    }
}

// Makes a fresh store of whatever was in it; refused for another length, then for bad settings.
pub fn fresh(store: &mut [u8], n: u64, d: u64, own: u64) -> u64
    ensures { answer result store.new ≡ freshly store.old n d own }
{
    if !store::is_whole(store) {
        return Refusal::Lengths.answer();
    }
    let size = store::size_in(store);
    let Some(settings) = Settings::new(n, d, own, size) else {
        return Refusal::BadSettings.answer();
    };
    let whole = store.len();
    fields::clear(store, 0, whole);
    records::save(starting(settings), store);
    0
}
