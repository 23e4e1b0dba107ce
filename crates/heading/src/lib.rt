// The header of a store: settings and view in range, clocks in order, the lock a certificate of an earlier view.
#![tactic(auto)]

ghost use Rattle.std.specs.Prelude.{◌≡◌, ◌&&◌};
ghost use Rattle.rules.specs.Sizes.{good_settings};
ghost use Rattle.rules.specs.Messages.{view_allowed};
ghost use Rattle.rules.specs.WellFormed.{clocks_in_order, lock_good};
ghost use Rattle.settings.specs.Made.{settings_of};
ghost use Rattle.store.specs.Meaning.{course_of};
ghost use Rattle.heading.specs.Alone.{alone, phase_in_order};

use settings::Settings;
use store::{Phase, Station};

// Whether the settings are in range.
fn settings_good(settings: Settings) -> bool
    ensures { result ≡ good_settings (settings_of settings) }
{
    let size = settings.size;
    Settings::new(settings.n, settings.delay, settings.own, size).is_some()
}

// Whether a waiting station quit from its entry to its clock.
fn phase_in_order(phase: Phase, entry: u32, clock: u32) -> bool
    ensures { result ≡ phase_in_order entry clock (course_of phase) }
{
    match phase {
        Phase::Waiting(quit) => (entry <= quit) & (quit <= clock),
        Phase::InView => true,
        Phase::Stopped(_) => true,
    }
}

// Whether entry, quit and clock are in order, up to the clock's end.
fn clocks_in_order(station: Station) -> bool
    ensures { result ≡ clocks_in_order (alone station) }
{
    let phase = station.phase;
    let waited = phase_in_order(phase, station.entry, station.clock);
    (station.entry <= station.clock) & (u64::from(station.clock) <= Settings::LAST_CLOCK) & waited
}

// Whether the lock is a certificate of an earlier view.
fn lock_good(station: Station) -> bool
    ensures { result ≡ lock_good (alone station) }
{
    let settings = station.settings;
    let lock = station.lock;
    let name = lock.name;
    let height = u64::from(lock.height);
    let block = clauses::block_allowed(height, name);
    let certified = clauses::certificate_allowed(settings, height, u64::from(lock.view), lock.mask);
    (lock.view < station.view) & block & certified
}

// Whether the header is well formed.
pub fn header_good(station: Station) -> bool
    ensures { result ≡ (good_settings (alone station).settings && view_allowed (alone station).settings (alone station).view && clocks_in_order (alone station) && lock_good (alone station)) }
{
    let settings = station.settings;
    settings_good(settings)
        & clauses::view_allowed(settings, u64::from(station.view))
        & clocks_in_order(station)
        & lock_good(station)
}
