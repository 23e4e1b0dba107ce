// What bars every call alike.
#![tactic(auto)]

ghost use Rattle.std.specs.Prelude.{◌≡◌, replicate};
ghost use Rattle.rules.specs.Limits.{most_statements_large};
ghost use Rattle.refusals.specs.Barred.{barred, refusal_number, Checks};

use answer::Refusal;
use settings::Settings;
use store::Station;

// The check of both buffers, of their lengths and of whether the store is well formed, and what the log tells.
pub fn checked(
    store: &[u8],
    out: &[u8],
    told: &mut [u16; Settings::MOST_STATEMENTS_LARGE],
) -> Result<(), Refusal>
    requires { told.old ≡ replicate most_statements_large 0 }
    ensures { Checks store.now out.now (refusal_number result) told.new }
{
    if !store::is_whole(store) {
        return Err(Refusal::Lengths);
    }
    if out.len() < store::least_out_in(store) {
        return Err(Refusal::Lengths);
    }
    if !formed::well_formed_told(store, told) {
        return Err(Refusal::Malformed);
    }
    Ok(())
}

// What bars every call alike: what the check says, or that the station stopped.
pub fn barred(store: &[u8], out: &[u8]) -> Result<(), Refusal>
    ensures { refusal_number result ≡ barred store.now out.now }
{
    let mut told = [0u16; Settings::MOST_STATEMENTS_LARGE];
    checked(store, out, &mut told)?;
    let station = Station::load(store);
    if !stops::is_running(store, station) {
        return Err(Refusal::Stopped);
    }
    Ok(())
}
