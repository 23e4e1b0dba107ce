// Chains of a table's records, made anew in each check, so that a record is compared with those of its own chain alone.
// Which chain goes by every word of a block and by a salt; a walk along a chain is exact whatever names were chosen.
#![tactic(auto)]

ghost use Rattle.std.specs.Prelude.{◌≡◌, ◌+◌, ◌*◌, ◌<◌, ◌≤◌, length, slice_set};
ghost use Rattle.rules.specs.Limits.{most_tallies_large};
ghost use Rattle.rules.specs.Lists.{any};
ghost use Rattle.store.specs.Decode.{nth};
ghost use Rattle.chains.specs.Chains.{chains, stir, stir_words, chain_of, Bare, behind, Walk, is_of};

use settings::Settings;
use store::NAME;

// How many chains there are.
pub const CHAINS: usize = 2_048;

// What a check begins to stir with: another number at each clock, so that names that were chosen for one chain are not on one at the next.
pub fn salt(clock: u32) -> u64 {
    u64::from(clock) * 2_146_121_005 + 3_668_340_011_890_124_611
}

// A number stirred with a word: the product of the halves of their sum is added to it.
pub fn stirred(mix: u64, word: u64) -> u64
    ensures { result ≡ stir mix word }
{
    let sum = std::num::wrapping_add_u64(mix, word);
    let product = (sum % 4_294_967_296) * (sum / 4_294_967_296);
    std::num::wrapping_add_u64(mix, product)
}

// A number stirred with so many words from a place on. How many is asked, so that the compiler makes the loop anew at each call.
pub fn with_words(store: &[u8], mix: u64, at: usize, words: usize) -> u64
    requires { at + 8 * words ≤ length store.now }
    ensures { result ≡ stir_words store.now mix at words }
{
    let mut mixed = mix;
    for k in 0..words {
        mixed = stirred(mixed, fields::get(store, at + 8 * k, 8));
    }
    mixed
}

// The chain of a number.
pub fn chain_of(mix: u64) -> usize
    ensures { (result ≡ chain_of mix) × (result < chains) }
{
    (mix / 4_294_967_296) as usize % CHAINS
}

// The chains of a table's records. Of each chain the first record and of each record the next on its chain, by how many are left of
// the table from that one on; 0 ends a chain, for an Option in each place would take twice the room.
#[derive(Drop)]
pub struct Chains {
    pub heads: [u16; CHAINS],
    pub nexts: [u16; Settings::MOST_TALLIES_LARGE],
}

impl Chains {
    // Chains on which no record hangs.
    pub fn new() -> Chains
        ensures { Bare result.heads result.nexts }
    {
        Chains {
            heads: [0; CHAINS],
            nexts: [0; Settings::MOST_TALLIES_LARGE],
        }
    }

    // Record i hangs on a chain before all that do, where so many are left from it on.
    pub fn hang(&mut self, chain: usize, i: usize, left: usize)
        requires { (chain < chains) × (i < most_tallies_large) × (left ≤ most_tallies_large) }
        ensures { (self.new.heads ≡ slice_set self.old.heads chain left) × (self.new.nexts ≡ slice_set self.old.nexts i (nth self.old.heads chain)) }
    {
        self.nexts[i] = self.heads[chain];
        self.heads[chain] = left as u16;
    }

    // Whether a record of this block is among the last so many of a table, on their chain: a walk along it, which counts nothing, since
    // each record names the next.
    pub fn walked(
        &self,
        store: &[u8],
        base: usize,
        size: usize,
        count: usize,
        left: usize,
        key: u64,
        at: usize,
    ) -> bool
        requires { (40 ≤ size) × (base + size * count ≤ length store.now) × (count ≤ most_tallies_large) × (at + 32 ≤ length store.now) × Walk (is_of store.now base size key at) count left self.now.nexts }
        ensures { result ≡ any (is_of store.now base size key at) (behind count left) }
    {
        let mut rest = left;
        while 0 < rest {
            let i = count - rest;
            let to = base + size * i;
            if (key == fields::get(store, to, 8)) & fields::same(store, at, store, to + NAME, 32) {
                return true;
            }
            rest = self.nexts[i] as usize;
        }
        false
    }

    // The same of a chain, without a walk where it is empty, as most are while records hang.
    pub fn has_block(
        &self,
        store: &[u8],
        base: usize,
        size: usize,
        count: usize,
        chain: usize,
        key: u64,
        at: usize,
    ) -> bool
        requires { (chain < chains) × (40 ≤ size) × (base + size * count ≤ length store.now) × (count ≤ most_tallies_large) × (at + 32 ≤ length store.now) × Walk (is_of store.now base size key at) count (nth self.now.heads chain) self.now.nexts }
        ensures { result ≡ any (is_of store.now base size key at) (behind count (nth self.now.heads chain)) }
    {
        let left = self.heads[chain] as usize;
        if left == 0 {
            return false;
        }
        self.walked(store, base, size, count, left, key, at)
    }
}
