// A group as calls without a store are told of it: a kind and a number of stations.
#![tactic(auto)]

ghost use Rattle.std.specs.Prelude.{◌≡◌};
ghost use Rattle.groups.specs.Groups.{group};
ghost use Rattle.settings.specs.Made.{made_of};

use settings::{Settings, Size};

// The settings that a kind of group and a number of stations go with, if both are good.
pub fn group_of(kind: u64, n: u64) -> Option<Settings>
    ensures { made_of result ≡ group kind n }
{
    match kind {
        0 => Settings::new(n, Settings::LEAST_DELAY, 0, Size::Small),
        4 => Settings::new(n, Settings::LEAST_DELAY, 0, Size::Large),
        _ => None,
    }
}
