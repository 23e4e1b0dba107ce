// The exported calls, on numbers and byte buffers. Each contract says the result and every byte left, for all inputs.
#![tactic(auto)]

ghost use Rattle.std.specs.Prelude.{◌≡◌};
ghost use Rattle.fresh.specs.Fresh.{answer, freshly};
ghost use Rattle.calls.specs.Calls.{step_called, offer_called, tick_called, Gives};

use answer::Refusal;
use settings::Settings;
use store::Station;

// Makes a fresh store of whatever was in it.
#[unsafe(no_mangle)]
pub extern "C" fn station_fresh(store: &mut [u8], n: u64, d: u64, own: u64) -> u64
    ensures { answer result store.new ≡ freshly store.old n d own }
{
    fresh::fresh(store, n, d, own)
}

// A message came: what it makes the station do, or why it is refused.
#[unsafe(no_mangle)]
pub extern "C" fn station_step(store: &mut [u8], message: &[u8], out: &mut [u8]) -> u64
    ensures { Gives (step_called message.now store.old out.old) result store.new out.new }
{
    if let Err(refusal) = refusals::barred(store, out) {
        return refusal.answer();
    }
    let Some(m) = reading::read_message(message) else {
        return Refusal::Unreadable.answer();
    };
    let station = Station::load(store);
    if !allowed::message_allowed(station.settings, m) {
        return Refusal::NotAllowed.answer();
    }
    if messages::is_ahead(station.view, m) {
        return Refusal::Ahead.answer();
    }
    messages::handled(store, out, m)
}

// A name is offered: it is proposed above the top of the view, or the offer is refused.
#[unsafe(no_mangle)]
pub extern "C" fn station_offer(store: &mut [u8], name: &[u8], out: &mut [u8]) -> u64
    ensures { Gives (offer_called name.now store.old out.old) result store.new out.new }
{
    if name.len() != 32 {
        return Refusal::Lengths.answer();
    }
    if let Err(refusal) = refusals::barred(store, out) {
        return refusal.answer();
    }
    let Some(x) = offers::offered(store, fields::get_name(name, 0)) else {
        return Refusal::NoOffer.answer();
    };
    messages::stated(store, out, x)
}

// One tick of the clock: what is due by it, or why it is refused.
#[unsafe(no_mangle)]
pub extern "C" fn station_tick(store: &mut [u8], out: &mut [u8]) -> u64
    ensures { Gives (tick_called store.old out.old) result store.new out.new }
{
    let mut told = [0u16; Settings::MOST_STATEMENTS_LARGE];
    if let Err(refusal) = refusals::checked(store, out, &mut told) {
        return refusal.answer();
    }
    ticks::ticked(store, out, &told)
}
