// No two statements are the same, and every one has its tallies: from the last one down each looks for its blocks among the tallies,
// and for itself on its chain among the statements behind it.
#![tactic(auto)]

ghost use Rattle.std.specs.Prelude.{◌≡◌, ◌&&◌, ◌+◌, ◌<◌, length};
ghost use Rattle.rules.specs.Limits.{most_statements};
ghost use Rattle.rules.specs.Lists.{any, all, distinct};
ghost use Rattle.rules.specs.Words.{same_statement};
ghost use Rattle.rules.specs.WellFormed.{tallies_there};
ghost use Rattle.store.specs.Layout.{size_in, store_length, statement_table, tally_table};
ghost use Rattle.store.specs.Decode.{statement_at, statements, tallies};
ghost use Rattle.form.specs.Lent.{Counts};
ghost use Rattle.chains.specs.Chains.{chains, behind, Walk, Chained};
ghost use Rattle.apart.specs.Tallies.{tally_chain};
ghost use Rattle.repeats.specs.Repeats.{AllCertify, statement_chain, is_same, Met};

use apart::Block;
use chains::Chains;
use store::{AUTHOR, LINK, NAME, STATEMENT_SIZE, STATEMENTS};

// Whether two statements are the same, but for the mask, where they lie.
fn is_same(store: &[u8], i: usize, k: usize) -> bool
    requires { (length store.now ≡ store_length (size_in store.now)) × (i < most_statements (size_in store.now)) × (k < most_statements (size_in store.now)) }
    ensures { result ≡ is_same store.now (statement_at store.now i) k }
{
    let at = STATEMENTS + STATEMENT_SIZE * i;
    let to = STATEMENTS + STATEMENT_SIZE * k;
    let block = fields::same(store, at, store, to, 8)
        & fields::same(store, at + NAME, store, to + NAME, 32);
    let written = (fields::get(store, at + AUTHOR, 1) == fields::get(store, to + AUTHOR, 1))
        & fields::same(store, at + LINK, store, to + LINK, 32);
    block & (((store::kind_at(store, i) == 1) == (store::kind_at(store, k) == 1)) & written)
}

// Whether one of the last so many statements is the same as statement i, on their chain: a walk along it, which counts nothing, since
// each statement names the next.
fn met(store: &[u8], count: usize, hung: &Chains, left: usize, i: usize) -> bool
    requires { Counts statement_table store.now count × (i < count) × Walk (is_same store.now (statement_at store.now i)) count left hung.now.nexts }
    ensures { result ≡ any (is_same store.now (statement_at store.now i)) (behind count left) }
{
    let mut rest = left;
    while 0 < rest {
        let k = count - rest;
        if is_same(store, i, k) {
            return true;
        }
        rest = hung.nexts[k] as usize;
    }
    false
}

// Whether a later statement is the same as statement i; if none is, statement i hangs on its chain.
fn repeated(
    store: &[u8],
    salt: u64,
    count: usize,
    hung: &mut Chains,
    i: usize,
    chain: usize,
) -> bool
    requires { Counts statement_table store.now count × (i < count) × Chained (statement_chain store.now salt) (i + 1) count hung.old.heads hung.old.nexts × (chain ≡ statement_chain store.now salt i) × (chain < chains) }
    ensures { Met store.now salt count i result hung.new.heads hung.new.nexts }
{
    let left = hung.heads[chain] as usize;
    if met(store, count, hung, left, i) {
        return true;
    }
    hung.hang(chain, i, count - i);
    false
}

// Whether every statement has its tallies, and no two are the same.
pub fn there_and_apart(
    store: &[u8],
    salt: u64,
    count: usize,
    tallied: &Chains,
    stored: usize,
) -> bool
    requires { Counts tally_table store.now count × Chained (tally_chain store.now salt) 0 count tallied.now.heads tallied.now.nexts × Counts statement_table store.now stored × AllCertify store.now stored }
    ensures { result ≡ (all (tallies_there (tallies store.now)) (statements store.now) && distinct same_statement (statements store.now)) }
{
    if stored == 0 {
        return true;
    }
    let mut hung = Chains::new();
    let mut after = Block {
        key: 0,
        at: 0,
        mixed: 0,
    };
    for i in (0..stored).rev() {
        let block = backed::certified_block(store, salt, i);
        let own = backed::own_block(store, salt, i, block.key, after);
        if !backed::there(store, salt, count, tallied, i, own, block) {
            return false;
        }
        let chain = chains::chain_of(chains::stirred(own.mixed, block.mixed));
        if repeated(store, salt, stored, &mut hung, i, chain) {
            return false;
        }
        after = block;
    }
    true
}
