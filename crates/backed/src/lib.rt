// Every statement has its tallies: of its own block and of the block that it certifies, each looked for among the tallies.
// A block is told by its view and height as one number and by its name where it lies.
#![tactic(auto)]

ghost use Rattle.std.specs.Prelude.{◌≡◌, ◌+◌, ◌*◌, ◌^◌, ◌≤◌, ◌<◌, length};
ghost use Rattle.rules.specs.Limits.{small, most_statements};
ghost use Rattle.rules.specs.Lists.{any};
ghost use Rattle.rules.specs.Words.{certificate, own_block, of_block};
ghost use Rattle.rules.specs.WellFormed.{tallies_there};
ghost use Rattle.fields.specs.Places.{number};
ghost use Rattle.words.specs.Meaning.{Certifies};
ghost use Rattle.store.specs.Layout.{size_in, store_length, statement_table, tally_table, place_of};
ghost use Rattle.store.specs.Decode.{statement_at, tallies};
ghost use Rattle.form.specs.Lent.{Counts};
ghost use Rattle.chains.specs.Chains.{Chained};
ghost use Rattle.apart.specs.Tallies.{tally_chain};
ghost use Rattle.backed.specs.Backed.{Stirs, Found, Owns};

use apart::Block;
use chains::Chains;
use stated::CERT;
use store::{LINK, NAME, STATEMENT_SIZE, STATEMENTS};

// A statement's own block: view and height, the salt stirred with it, and whether its tally was found before.
// Both numbers are used either way, so the flag is no Option.
#[derive(Clone, Copy)]
pub struct Own {
    pub key: u64,
    pub mixed: u64,
    pub found: bool,
}

// View and height of the block that statement i certifies: a new-view's view is its link, a propose's block is one below.
fn certified_key(store: &[u8], i: usize) -> u64
    requires { (length store.now ≡ store_length (size_in store.now)) × (i < most_statements (size_in store.now)) × Certifies (statement_at store.now i) }
    ensures { result ≡ (certificate (statement_at store.now i)).view * 256 ^ 4 + (certificate (statement_at store.now i)).height }
{
    let at = STATEMENTS + STATEMENT_SIZE * i;
    if store::kind_at(store, i) == 1 {
        let view = fields::get(store, at + CERT, 4);
        return view * 4_294_967_296 + u64::from(store::height_at(store, i));
    }
    fields::get(store, at, 8) - 1
}

// Where the name of that block is.
fn certified_at(store: &[u8], i: usize) -> usize
    requires { (length store.now ≡ store_length (size_in store.now)) × (i < most_statements (size_in store.now)) }
    ensures { (number store.now result 32 ≡ (certificate (statement_at store.now i)).name) × (result + 32 ≤ length store.now) }
{
    let at = STATEMENTS + STATEMENT_SIZE * i;
    if store::kind_at(store, i) == 1 {
        return at + NAME;
    }
    at + LINK
}

// That block.
pub fn certified_block(store: &[u8], salt: u64, i: usize) -> Block
    requires { (length store.now ≡ store_length (size_in store.now)) × (i < most_statements (size_in store.now)) × Certifies (statement_at store.now i) }
    ensures { Stirs store.now salt i result.key result.at result.mixed }
{
    let key = certified_key(store, i);
    let at = certified_at(store, i);
    let mixed = chains::with_words(store, chains::stirred(salt, key), at, 4);
    Block { key, at, mixed }
}

// View and height of statement i, where those of the block that it certifies are known: a propose's are one above, so that its first
// eight bytes are read once.
fn own_key(store: &[u8], i: usize, below: u64) -> u64
    requires { (length store.now ≡ store_length (size_in store.now)) × (i < most_statements (size_in store.now)) × Certifies (statement_at store.now i) × (below ≡ (certificate (statement_at store.now i)).view * 256 ^ 4 + (certificate (statement_at store.now i)).height) }
    ensures { result ≡ number store.now (place_of statement_table small i) 8 }
{
    if store::kind_at(store, i) == 1 {
        return fields::get(store, STATEMENTS + STATEMENT_SIZE * i, 8);
    }
    below + 1
}

// The own block of statement i: along a chain it is the one that the statement right behind certifies, whose tally was found.
pub fn own_block(store: &[u8], salt: u64, i: usize, below: u64, after: Block) -> Own
    requires { (length store.now ≡ store_length (size_in store.now)) × (i < most_statements (size_in store.now)) × Certifies (statement_at store.now i) × (below ≡ (certificate (statement_at store.now i)).view * 256 ^ 4 + (certificate (statement_at store.now i)).height) × Found store.now salt after.key after.at after.mixed }
    ensures { Owns store.now salt i result.key result.mixed result.found }
{
    let at = STATEMENTS + STATEMENT_SIZE * i + NAME;
    let key = own_key(store, i, below);
    let same = (4_294_967_296 <= key)
        & (key == after.key)
        & fields::same(store, at, store, after.at, 32);
    if same {
        return Own {
            key,
            mixed: after.mixed,
            found: true,
        };
    }
    let mixed = chains::with_words(store, chains::stirred(salt, key), at, 4);
    Own {
        key,
        mixed,
        found: false,
    }
}

// Whether the own block of statement i has a tally.
fn own_there(store: &[u8], salt: u64, count: usize, hung: &Chains, i: usize, own: Own) -> bool
    requires { Counts tally_table store.now count × Chained (tally_chain store.now salt) 0 count hung.now.heads hung.now.nexts × (i < most_statements (size_in store.now)) × Owns store.now salt i own.key own.mixed own.found }
    ensures { result ≡ any (of_block (own_block (statement_at store.now i) 0)) (tallies store.now) }
{
    if own.found {
        return true;
    }
    let at = STATEMENTS + STATEMENT_SIZE * i + NAME;
    let block = Block {
        key: own.key,
        at,
        mixed: own.mixed,
    };
    apart::has_tally(store, count, hung, block)
}

// Whether statement i has its tallies; genesis has none in view 0.
pub fn there(
    store: &[u8],
    salt: u64,
    count: usize,
    hung: &Chains,
    i: usize,
    own: Own,
    block: Block,
) -> bool
    requires { Counts tally_table store.now count × Chained (tally_chain store.now salt) 0 count hung.now.heads hung.now.nexts × (i < most_statements (size_in store.now)) × Owns store.now salt i own.key own.mixed own.found × Stirs store.now salt i block.key block.at block.mixed }
    ensures { result ≡ tallies_there (tallies store.now) (statement_at store.now i) }
{
    if !own_there(store, salt, count, hung, i, own) {
        return false;
    }
    if block.key < 4_294_967_296 {
        return true;
    }
    apart::has_tally(store, count, hung, block)
}
