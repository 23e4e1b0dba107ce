// How a whole chain joins the log that a tick has so far, both by places of statements in small local tables.
// The store is only read; a caller shows that it has the form.
#![tactic(auto)]

ghost use Rattle.std.specs.Prelude.{◌≡◌, length, get_or, ◌<◌, ◌≤◌};
ghost use Rattle.rules.specs.Limits.{most_statements};
ghost use Rattle.fields.specs.Names.{name_of};
ghost use Rattle.store.specs.Layout.{size_in, log_table, store_length, count_of};
ghost use Rattle.glance.specs.Tables.{name_in, Known};
ghost use Rattle.merging.specs.Joins.{name_so_far, WholeChain, Agree, Copied, JoinedWith};

use fields::Name;

// The name of the statement whose place stands in a table.
fn name_in(store: &[u8], table: &[u16], k: usize) -> Name
    requires { (length store.now ≡ store_length (size_in store.now)) × (k < length table.now) × (get_or table.now k 0 < most_statements (size_in store.now)) }
    ensures { name_of result ≡ name_in store.now table.now k }
{
    let x = store::statement_at(store, glance::place_in(table, k));
    x.name
}

// The name at height k + 1 of the log so far.
fn name_so_far(store: &[u8], logged: usize, gained: &[u16], k: usize) -> Name
    requires { (length store.now ≡ store_length (size_in store.now)) × (logged ≡ count_of log_table store.now) × (logged ≤ most_statements (size_in store.now)) × (k < length gained.now) × (logged ≤ k → get_or gained.now k 0 < most_statements (size_in store.now)) }
    ensures { name_of result ≡ name_so_far store.now gained.now k }
{
    if k < logged {
        return store::name_at(store, k);
    }
    name_in(store, gained, k)
}

// Whether the chain and the log so far have the same names up to a height; the lowest are known to be the log's.
fn agrees(
    store: &[u8],
    logged: usize,
    len: usize,
    gained: &[u16],
    chain: &[u16],
    height: usize,
    known: usize,
    end: usize,
) -> bool
    requires { (WholeChain store.now gained.now chain.now logged len height) × (Known store.now chain.now known) × (end ≤ len) × (end ≤ height) }
    ensures { Agree (name_in store.now chain.now) (name_so_far store.now gained.now) end result }
{
    for k in known..end {
        let own = name_in(store, chain, k);
        let old = name_so_far(store, logged, gained, k);
        if own != old {
            return false;
        }
    }
    true
}

// Copies the places from one height up to another, one by one: std's copy would want a name from outside of whoever links the archive.
fn copy_places(from: &[u16], to: &mut [u16], start: usize, end: usize)
    requires { (end ≤ length from.now) × (end ≤ length to.old) }
    ensures { Copied from.now to.old to.new start end }
{
    for k in start..end {
        to[k] = from[k];
    }
}

// A whole chain joins the log so far: how long the log is then, or nothing where the chain differs from it. The lengths stand beside
// the tables, for there is no heap: the log's table grows in place, and the chain's is walked into again.
pub fn join(
    store: &[u8],
    logged: usize,
    len: usize,
    gained: &mut [u16],
    chain: &[u16],
    height: usize,
    known: usize,
) -> Option<usize>
    requires { (WholeChain store.now gained.old chain.now logged len height) × (Known store.now chain.now known) }
    ensures { JoinedWith store.now gained.old gained.new chain.now height len result }
{
    if !agrees(
        store,
        logged,
        len,
        gained,
        chain,
        height,
        known,
        height.min(len),
    ) {
        return None;
    }
    if height <= len {
        return Some(len);
    }
    copy_places(chain, gained, len, height);
    Some(height)
}
