// The form of a store: counts in range, unused records zero, every kind 1 or 2.
#![tactic(auto)]

ghost use Rattle.std.specs.Prelude.{◌≡◌, ◌+◌, ◌*◌, ◌≤◌, length};
ghost use Rattle.rules.specs.Lists.{all, within};
ghost use Rattle.store.specs.Layout.{statement_table};
ghost use Rattle.store.specs.Decode.{kinds, has_form};
ghost use Rattle.form.specs.Lent.{Lent, Counts, fits};

use store::{NAME_SIZE, STATEMENT_SIZE, STATEMENTS, Station, TALLY_SIZE};

// Whether a table's count is in range and its unused records are zero.
fn table_fits(store: &[u8], base: usize, size: usize, room: usize, count: usize) -> bool
    requires { base + size * room ≤ length store.now }
    ensures { result ≡ fits store.now base size room count }
{
    if room < count {
        return false;
    }
    fields::all_zero(store, base + size * count, size * room - size * count)
}

// Whether every statement is of kind 1 or 2.
fn kinds_good(store: &[u8], count: usize) -> bool
    requires { Counts statement_table store.now count }
    ensures { result ≡ all (within 1 2) (kinds store.now) }
{
    for i in 0..count {
        let kind = store::kind_at(store, i);
        let good = (1 <= kind) & (kind <= 2);
        if !good {
            return false;
        }
    }
    true
}

// Whether a store of the exact length has the form.
pub fn has_form(store: &[u8], station: Station) -> bool
    requires { Lent store.now station }
    ensures { result ≡ has_form store.now }
{
    let settings = station.settings;
    let size = settings.size;
    let most = size.most_statements();
    let statements = table_fits(store, STATEMENTS, STATEMENT_SIZE, most, station.statements);
    let tallies = table_fits(
        store,
        store::tallies_in(store),
        TALLY_SIZE,
        size.most_tallies(),
        station.tallies,
    );
    let log = table_fits(store, store::log_in(store), NAME_SIZE, most, station.logged);
    let tables = statements & tallies & log;
    if !tables {
        return false;
    }
    kinds_good(store, station.statements)
}
