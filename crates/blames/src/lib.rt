// The blame masks of a store.
#![tactic(auto)]

ghost use Rattle.std.specs.Prelude.{◌≡◌, length};
ghost use Rattle.rules.specs.WellFormed.{blames_good};
ghost use Rattle.settings.specs.Made.{settings_of};
ghost use Rattle.store.specs.Layout.{size_in, store_length};
ghost use Rattle.store.specs.Decode.{blames};

use settings::Settings;

// Whether every blame mask is of these stations.
pub fn all_good(store: &[u8], settings: Settings) -> bool
    requires { (length store.now ≡ store_length (size_in store.now)) × ((settings_of settings).size ≡ size_in store.now) }
    ensures { result ≡ blames_good (settings_of settings) (blames store.now) }
{
    let last = settings.last_view() as usize;
    for i in 0..last {
        let mask = store::blame_at(store, i);
        if !clauses::mask_within(settings, mask) {
            return false;
        }
    }
    true
}
