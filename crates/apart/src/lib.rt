// Tallies are allowed, and no two are of one block: each is looked for on its chain among those behind it, and then hangs before them.
#![tactic(auto)]

ghost use Rattle.std.specs.Prelude.{◌+◌, ◌≤◌, ◌<◌, length};
ghost use Rattle.rules.specs.Limits.{most_stations};
ghost use Rattle.settings.specs.Made.{settings_of};
ghost use Rattle.store.specs.Layout.{tally_table};
ghost use Rattle.form.specs.Lent.{Counts};
ghost use Rattle.chains.specs.Chains.{Bare, Chained};
ghost use Rattle.apart.specs.Tallies.{tally_chain, Met, Apart, Sought, Has};

use chains::Chains;
use settings::Settings;
use store::{NAME, TALLY_SIZE};
use tallied::good;

// A block that is looked for: its view and height as one number, the place of its name, and the salt stirred with all of it.
#[derive(Clone, Copy)]
pub struct Block {
    pub key: u64,
    pub at: usize,
    pub mixed: u64,
}

// Whether a later tally is of the block of tally i; if none is, tally i hangs on its chain.
fn repeated(store: &[u8], salt: u64, count: usize, hung: &mut Chains, i: usize) -> bool
    requires { Counts tally_table store.now count × (i < count) × Chained (tally_chain store.now salt) (i + 1) count hung.old.heads hung.old.nexts }
    ensures { Met store.now salt count i result hung.new.heads hung.new.nexts }
{
    let base = store::tallies_in(store);
    let at = base + TALLY_SIZE * i;
    let key = fields::get(store, at, 8);
    let chain = chains::chain_of(chains::with_words(store, salt, at, 5));
    if hung.has_block(store, base, TALLY_SIZE, count, chain, key, at + NAME) {
        return true;
    }
    hung.hang(chain, i, count - i);
    false
}

// Whether every tally is good and no two are of one block; then all hang on their chains.
pub fn good_and_apart(
    store: &[u8],
    settings: Settings,
    clock: u32,
    salt: u64,
    count: usize,
    hung: &mut Chains,
) -> bool
    requires { Counts tally_table store.now count × (settings.n ≤ most_stations) × Bare hung.old.heads hung.old.nexts }
    ensures { Apart (settings_of settings) clock store.now salt count result hung.new.heads hung.new.nexts }
{
    if !good::all_good(store, settings, clock, count) {
        return false;
    }
    for i in (0..count).rev() {
        if repeated(store, salt, count, hung, i) {
            return false;
        }
    }
    true
}

// Whether a tally is of a block, once all tallies hang.
pub fn has_tally(store: &[u8], count: usize, hung: &Chains, block: Block) -> bool
    requires { Counts tally_table store.now count × Sought store.now count block.mixed block.key block.at hung.now.heads hung.now.nexts × (block.at + 32 ≤ length store.now) }
    ensures { Has store.now block.key block.at result }
{
    let base = store::tallies_in(store);
    let chain = chains::chain_of(block.mixed);
    let left = hung.heads[chain] as usize;
    hung.walked(store, base, TALLY_SIZE, count, left, block.key, block.at)
}
