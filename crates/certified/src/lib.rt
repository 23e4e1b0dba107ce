// The call that tells when a block was certified: the clock at which its tally first had a quorum in this store. The store is only read.
#![tactic(auto)]

ghost use Rattle.std.specs.Prelude.{◌≡◌};
ghost use Rattle.rules.specs.Words.{reached_of};
ghost use Rattle.fields.specs.Names.{name_of};
ghost use Rattle.tallies.specs.Values.{told};
ghost use Rattle.store.specs.Decode.{tallies, Form};
ghost use Rattle.certified.specs.Called.{asked, certified_called};

use answer::Refusal;
use fields::Name;
use words::Certificate;

// The clock at which a block's tally first had a quorum, if it had one. A record's numbers have four bytes, so a greater one is in none.
pub fn since(store: &[u8], view: u64, height: u64, name: Name) -> Option<u32>
    requires { Form store.now }
    ensures { told result ≡ reached_of (asked view height (name_of name)) (tallies store.now) }
{
    let most = u64::from(u32::MAX);
    if most < view {
        return None;
    }
    if most < height {
        return None;
    }
    let block = Certificate {
        view: view as u32,
        height: height as u32,
        name,
        mask: 0,
    };
    let i = store::find_tally(store, block)?;
    store::reached_at(store, i)
}

// One more than the clock at which a block was certified, 0 where it wasn't, or why the store or the name is refused.
#[unsafe(no_mangle)]
pub extern "C" fn station_certified(store: &[u8], view: u64, height: u64, name: &[u8]) -> u64
    ensures { result ≡ certified_called store.now view height name.now }
{
    if !store::is_whole(store) {
        return Refusal::Lengths.answer();
    }
    if name.len() != 32 {
        return Refusal::Lengths.answer();
    }
    if !formed::well_formed(store) {
        return Refusal::Malformed.answer();
    }
    match since(store, view, height, fields::get_name(name, 0)) {
        Some(clock) => u64::from(clock) + 1,
        None => 0,
    }
}
