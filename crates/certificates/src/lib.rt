// What is looked up among the tallies of a store: a block's voters, how many an author opened, and the highest certificate of an
// earlier view; nothing here writes to the store.
// A caller shows that the store has its form; all else is exact.
#![tactic(auto)]

ghost use Rattle.std.specs.Prelude.{◌≡◌, ◌<◌, length};
ghost use Rattle.rules.specs.Limits.{mask_bits, most_tallies};
ghost use Rattle.rules.specs.Words as words;
ghost use Rattle.settings.specs.Made.{settings_of};
ghost use Rattle.words.specs.Meaning.{block_of};
ghost use Rattle.store.specs.Layout.{size_in, store_length};
ghost use Rattle.store.specs.Decode.{Form, tally_at, tallies, state_of};
ghost use Rattle.certificates.specs.Chosen.{chosen};

use settings::Settings;
use store::Station;
use words::Certificate;

// The voters that a block's tally has.
pub fn voters(store: &[u8], block: Certificate) -> u16
    requires { Form store.now }
    ensures { result ≡ words.voters (block_of block) (tallies store.now) }
{
    match store::find_tally(store, block) {
        Some(i) => store::tally_at(store, i).block.mask,
        None => 0,
    }
}

// Whether an author opened tally i.
fn has_opened(store: &[u8], i: usize, author: u64) -> bool
    requires { (length store.now ≡ store_length (size_in store.now)) × (i < most_tallies (size_in store.now)) }
    ensures { result ≡ words.is_author author (tally_at store.now i).opener }
{
    store::opener_at(store, i).is_some_and(|opener| u64::from(opener) == author)
}

// How many tallies an author opened by votes.
pub fn opened_by(store: &[u8], author: u64) -> u16
    requires { (Form store.now) × (author < mask_bits) }
    ensures { result ≡ words.opened_by author (tallies store.now) }
{
    let station = Station::load(store);
    let mut opened: u16 = 0;
    for i in (0..station.tallies).rev() {
        if has_opened(store, i, author) {
            opened += 1;
        }
    }
    opened
}

// The better of a block with its voters and the best so far: a higher certificate of a view before.
// Voters are counted last, of a block that is higher.
fn better(settings: Settings, view: u32, block: Certificate, best: Certificate) -> Certificate
    ensures { block_of result ≡ chosen (settings_of settings) view (block_of block) (block_of best) }
{
    if view <= block.view {
        return best;
    }
    if !words::higher(block, best) {
        return best;
    }
    if !settings.quorum(u64::from(block.mask)) {
        return best;
    }
    block
}

// Whether tally i ranks below a certificate, by its view and height as one number.
fn ranks_below(store: &[u8], i: usize, best: Certificate) -> bool
    requires { (length store.now ≡ store_length (size_in store.now)) × (i < most_tallies (size_in store.now)) }
    ensures { result ≡ words.below (words.certificate_of (tally_at store.now i)) (block_of best) }
{
    let rank = fields::get(store, store::tally_place(store, i), 8);
    rank < u64::from(best.view) * 4_294_967_296 + u64::from(best.height)
}

// The highest certificate of a view before one. Most tallies rank below the best so far, and no more is read of them.
pub fn highest(store: &[u8], view: u32) -> Certificate
    requires { Form store.now }
    ensures { block_of result ≡ words.highest (state_of store.now).settings view (tallies store.now) }
{
    let station = Station::load(store);
    let settings = station.settings;
    let mut best = Certificate::genesis();
    for i in (0..station.tallies).rev() {
        if ranks_below(store, i, best) {
            continue;
        }
        let tally = store::tally_at(store, i);
        best = better(settings, view, tally.block, best);
    }
    best
}
