// The log of a store: linked by parent to genesis, through stored proposes, which hang by their height; and what of it the tick is told.
#![tactic(auto)]

ghost use Rattle.std.specs.Prelude.{◌≡◌, ◌+◌, ◌≤◌, ◌<◌, length, replicate, eqb};
ghost use Rattle.rules.specs.Limits.{most_statements, most_statements_large};
ghost use Rattle.rules.specs.Inputs.{is_block};
ghost use Rattle.fields.specs.Places.{number};
ghost use Rattle.fields.specs.Names.{name_of};
ghost use Rattle.store.specs.Layout.{size_in, store_length, statement_table, log_table};
ghost use Rattle.store.specs.Decode.{statement_at};
ghost use Rattle.form.specs.Lent.{Counts};
ghost use Rattle.chains.specs.Chains.{Bare, Chained};
ghost use Rattle.linked.specs.Links.{is_link, height_chain, Checked};
ghost use Rattle.linked.specs.Answers.{Answered};
ghost use Rattle.linked.specs.Told.{name_below};

use chains::{CHAINS, Chains};
use fields::Name;
use settings::Settings;
use store::{LINK, NAME, STATEMENT_SIZE, STATEMENTS};

// Whether statement i is the propose of this height, name and parent.
pub fn links(store: &[u8], i: usize, height: u32, name: Name, parent: Name) -> bool
    requires { (length store.now ≡ store_length (size_in store.now)) × (i < most_statements (size_in store.now)) }
    ensures { result ≡ is_link height (name_of name) (name_of parent) (statement_at store.now i) }
{
    if height != store::height_at(store, i) {
        return false;
    }
    let statement = store::statement_at(store, i);
    !statement.is_new_view & (name == statement.name) & (parent == statement.link)
}

// All statements hang on the chains of their heights.
fn hang_all(store: &[u8], count: usize, hung: &mut Chains)
    requires { Counts statement_table store.now count × Bare hung.old.heads hung.old.nexts }
    ensures { Chained (height_chain store.now) 0 count hung.new.heads hung.new.nexts }
{
    for i in (0..count).rev() {
        let chain = store::height_at(store, i) as usize % CHAINS;
        hung.hang(chain, i, count - i);
    }
}

// Whether statement i is a propose of this height with the name at a place, where they lie.
fn is_block(store: &[u8], i: usize, height: u32, at: usize) -> bool
    requires { (length store.now ≡ store_length (size_in store.now)) × (i < most_statements (size_in store.now)) × (at + 32 ≤ length store.now) }
    ensures { result ≡ is_block height (number store.now at 32) (statement_at store.now i) }
{
    let is_new_view = store::kind_at(store, i) == 1;
    let same = fields::same(store, at, store, STATEMENTS + STATEMENT_SIZE * i + NAME, 32);
    !is_new_view & (height == store::height_at(store, i)) & same
}

// Whether the parent of statement i is the logged name below place k.
fn is_above(store: &[u8], i: usize, k: usize) -> bool
    requires { (length store.now ≡ store_length (size_in store.now)) × (i < most_statements (size_in store.now)) × (k < most_statements (size_in store.now)) }
    ensures { result ≡ eqb (statement_at store.now i).link (name_below store.now k) }
{
    let link = STATEMENTS + STATEMENT_SIZE * i + LINK;
    if k == 0 {
        return fields::all_zero(store, link, 32);
    }
    fields::same(store, store::name_place(store, k - 1), store, link, 32)
}

// The place of the first propose of a logged name that is above the name below, and whether it is also the first of that name. The place
// holds either way, so the flag is no Option.
#[derive(Clone, Copy)]
struct Sought {
    place: usize,
    foremost: bool,
}

// That of the name logged at place k: a walk along the chain of its height, which counts nothing, since each statement names the next.
fn first_sought(store: &[u8], count: usize, hung: &Chains, k: usize) -> Option<Sought>
    requires { (k < most_statements (size_in store.now)) × Counts statement_table store.now count × Chained (height_chain store.now) 0 count hung.now.heads hung.now.nexts }
    ensures { Answered store.now k count result }
{
    let at = store::name_place(store, k);
    let mut foremost = true;
    let mut rest = hung.heads[(k + 1) % CHAINS] as usize;
    while 0 < rest {
        let i = count - rest;
        let named = is_block(store, i, k as u32 + 1, at);
        if is_above(store, i, k) & named {
            return Some(Sought { place: i, foremost });
        }
        foremost &= !named;
        rest = hung.nexts[i] as usize;
    }
    None
}

// Whether each logged name, above the one before, is that of a stored propose. Of the lowest names the table is told which stored
// proposes settle them, as far up as the first of each name is above the name below.
pub fn is_linked(
    store: &[u8],
    count: usize,
    stored: usize,
    told: &mut [u16; Settings::MOST_STATEMENTS_LARGE],
) -> bool
    requires { Counts log_table store.now count × Counts statement_table store.now stored × (told.old ≡ replicate most_statements_large 0) }
    ensures { Checked store.now result told.new }
{
    if count == 0 {
        return true;
    }
    let mut hung = Chains::new();
    hang_all(store, stored, &mut hung);
    let mut telling = true;
    for k in 0..count {
        let Some(found) = first_sought(store, stored, &hung, k) else {
            return false;
        };
        telling &= found.foremost;
        if telling {
            told[k] = found.place as u16 + 1;
        }
    }
    true
}
