// Who opened how many tallies: none more than one may.
#![tactic(auto)]

ghost use Rattle.std.specs.Prelude.{◌≡◌, ◌≤◌};
ghost use Rattle.rules.specs.Limits.{most_stations};
ghost use Rattle.rules.specs.WellFormed.{few_opened};
ghost use Rattle.store.specs.Layout.{tally_table};
ghost use Rattle.store.specs.Decode.{tallies};
ghost use Rattle.form.specs.Lent.{Counts};
ghost use Rattle.openers.specs.Counted.{Counted};

use settings::Settings;

// How many tallies have which opener's number, all counted in one pass. Tallies that no author opened, as most are, aren't counted:
// a count that each step reads back would make the steps wait for one another.
fn counts_of(store: &[u8], count: usize) -> [u16; 256]
    requires { Counts tally_table store.now count }
    ensures { Counted store.now 0 count result }
{
    let mut counts: [u16; 256] = [0; 256];
    for i in (0..count).rev() {
        if let Some(author) = store::opener_at(store, i) {
            counts[usize::from(author) + 1] += 1;
        }
    }
    counts
}

// Whether no author opened more tallies than one may. Author a's number is a + 1.
pub fn few_opened(store: &[u8], settings: Settings, count: usize) -> bool
    requires { Counts tally_table store.now count × (settings.n ≤ most_stations) }
    ensures { result ≡ few_opened settings.n (tallies store.now) }
{
    let counts = counts_of(store, count);
    let n = settings.n as usize;
    let mut few = true;
    for author in 0..n {
        few &= counts[author + 1] <= Settings::MOST_OPENED;
    }
    few
}
