// Whether a station runs, and how it stops.
#![tactic(auto)]

ghost use Rattle.std.specs.Prelude.{◌≡◌};
ghost use Rattle.answer.specs.Numbers.{number_of};
ghost use Rattle.rules.specs.Refusals.{stopping, running};
ghost use Rattle.store.specs.Decode.{state_of, Form};
ghost use Rattle.store.specs.Meaning.{cause_of, Loads};
ghost use Rattle.stops.specs.Answers.{Mutely};

use answer::Refusal;
use store::{Cause, Phase, Station};

// Whether a station is in a view or waiting.
pub fn is_running(store: &[u8], station: Station) -> bool
    requires { (Form store.now) × (Loads station store.now) }
    ensures { result ≡ running (state_of store.now) }
{
    !matches!(station.phase, Phase::Stopped(_))
}

// The station stops for a cause, and what it was asked is refused.
pub fn stop(store: &mut [u8], refusal: Refusal, cause: Cause) -> u64
    requires { Form store.old }
    ensures { Mutely (stopping (number_of refusal) (cause_of cause) (state_of store.old)) store.new result }
{
    records::set_phase(store, Phase::Stopped(cause));
    refusal.answer()
}
