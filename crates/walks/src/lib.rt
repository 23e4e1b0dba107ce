// The chain of a stored statement, walked down to where it meets the log or is not stored: its blocks as places in a small local table.
// The store is only read; a caller shows that it has the form.
#![tactic(auto)]

ghost use Rattle.std.specs.Prelude.{◌≡◌, length, get_or, ℕ, ◌<◌, ◌≤◌};
ghost use Rattle.rules.specs.Limits.{most_statements, most_statements_large};
ghost use Rattle.rules.specs.Inputs.{is_block};
ghost use Rattle.fields.specs.Names.{name_of};
ghost use Rattle.store.specs.Layout.{size_in, statement_table, store_length, count_of};
ghost use Rattle.store.specs.Decode.{statements, statement_at, Form};
ghost use Rattle.store.specs.Searches.{first_from};
ghost use Rattle.linked.specs.Told.{Told};
ghost use Rattle.walks.specs.Chains.{Meets, Lowered, Answered};

use fields::Name;

// How far down the chain of a statement goes.
#[derive(Clone, Copy)]
pub enum Reached {
    // All of it is stored, and so many of its lowest names are known to be the log's.
    Whole(usize),
    // So many of its lowest blocks, one at least, are not stored.
    Lacking(usize),
}

// Whether statement i is a propose of the name at the height; no more than its height is read where that differs.
fn is_block(store: &[u8], i: usize, height: u32, name: Name) -> bool
    requires { (length store.now ≡ store_length (size_in store.now)) × (i < most_statements (size_in store.now)) }
    ensures { result ≡ is_block height (name_of name) (statement_at store.now i) }
{
    if height != store::height_at(store, i) {
        return false;
    }
    let x = store::statement_at(store, i);
    !x.is_new_view & (name == x.name)
}

// The place of the first stored propose of the name at the height.
fn find_block(store: &[u8], count: usize, height: u32, name: Name) -> Option<usize>
    requires { (Form store.now) × (count ≡ count_of statement_table store.now) }
    ensures { result ≡ first_from (is_block height (name_of name)) 0 (statements store.now) }
{
    for i in 0..count {
        if is_block(store, i, height, name) {
            return Some(i);
        }
    }
    None
}

// Whether a chain that goes on with a name at height k goes on with the log there, as far down as the check told.
fn meets(store: &[u8], told: &[u16], k: usize, link: Name) -> bool
    requires { (Form store.now) × (Told store.now told.now) × (1 ≤ k) × (k ≤ most_statements_large) }
    ensures { Meets store.now told.now k (name_of link) result }
{
    if glance::place_in(told, k - 1) == 0 {
        return false;
    }
    link == store::name_at(store, k - 1)
}

// Puts the places of the log's lowest blocks, as the check told them, into a table.
fn copy_told(told: &[u16], to: &mut [u16], end: usize)
    requires { (end ≤ length told.now) × (end ≤ length to.old) × ((k : ℕ) → k < end → 0 < get_or told.now k 0) }
    ensures { Lowered told.now to.old to.new end }
{
    for k in 0..end {
        to[k] = told[k] - 1;
    }
}

// Puts the places of the chain of statement i into the table, from its height down, to where it meets the log or isn't stored.
pub fn walk(store: &[u8], told: &[u16], count: usize, i: usize, chain: &mut [u16]) -> Reached
    requires { (Form store.now) × (Told store.now told.now) × (count ≡ count_of statement_table store.now) × (i < count) × (length chain.old ≡ most_statements_large) × (1 ≤ (statement_at store.now i).height) × ((statement_at store.now i).height ≤ most_statements_large) }
    ensures { Answered store.now chain.new i result }
{
    let x = store::statement_at(store, i);
    let height = x.height as usize;
    chain[height - 1] = i as u16;
    let mut link = x.link;
    for k in (1..height).rev() {
        if meets(store, told, k, link) {
            copy_told(told, chain, k);
            return Reached::Whole(k);
        }
        let Some(p) = find_block(store, count, k as u32, link) else {
            return Reached::Lacking(k);
        };
        chain[k - 1] = p as u16;
        let parent = store::statement_at(store, p);
        link = parent.link;
    }
    Reached::Whole(0)
}
