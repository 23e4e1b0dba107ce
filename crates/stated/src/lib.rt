// The statements of a store: each allowed for these settings, and voted for not after the clock.
#![tactic(auto)]

ghost use Rattle.std.specs.Prelude.{◌≡◌, ◌+◌, ◌-◌, ◌≤◌, ◌<◌, length};
ghost use Rattle.rules.specs.Limits.{most_statements};
ghost use Rattle.rules.specs.Lists.{all};
ghost use Rattle.rules.specs.WellFormed.{statement_good};
ghost use Rattle.fields.specs.Places.{number};
ghost use Rattle.store.specs.Layout.{size_in, store_length, statement_table};
ghost use Rattle.tallies.specs.Values.{told};
ghost use Rattle.store.specs.Decode.{statement_at, statements};
ghost use Rattle.form.specs.Lent.{Counts};
ghost use Rattle.heading.specs.Alone.{alone};
ghost use Rattle.settings.specs.Made.{settings_of};
ghost use Rattle.stated.specs.Stated.{vote_in_order, new_view_said, propose_said, Read};

use settings::Settings;
use store::{AUTHOR, HEIGHT, LINK, MASK, NAME, STATEMENT_SIZE, STATEMENTS, Station};
use tallied::block;

// Where the last four bytes of a statement's link are: all of a new-view's.
pub const CERT: usize = LINK + 28;

// Whether a vote, if there is one, was not after the clock.
fn vote_in_order(vote: Option<u32>, clock: u32) -> bool
    ensures { result ≡ vote_in_order clock (told vote) }
{
    match vote {
        Some(voted) => voted <= clock,
        None => true,
    }
}

// Whether what a new-view says of its certificate is allowed: the certificate's view is its link, of which the last four bytes count.
fn new_view_said(
    store: &[u8],
    settings: Settings,
    at: usize,
    view: u64,
    height: u64,
    mask: u16,
) -> bool
    requires { (at + 80 ≤ length store.now) × Read store.now at view height mask }
    ensures { result ≡ new_view_said (settings_of settings) store.now at }
{
    let cert = fields::get(store, at + CERT, 4);
    let low = fields::all_zero(store, at + LINK, 28) & (cert < view);
    low & clauses::certificate_allowed(settings, height, cert, mask)
}

// Whether what a propose says of its parent is allowed.
fn propose_said(store: &[u8], settings: Settings, at: usize, height: u64, mask: u16) -> bool
    requires { (at + 80 ≤ length store.now) × (height ≡ number store.now (at + 4) 4) × (mask ≡ number store.now (at + 42) 2) }
    ensures { result ≡ propose_said (settings_of settings) store.now at }
{
    if height < 1 {
        return false;
    }
    let zero = fields::all_zero(store, at + LINK, 32);
    block::height_good(height - 1, zero) & clauses::mask_allowed(settings, mask)
}

// Whether statement i is allowed, and was voted for, if ever, not after the clock: field by field where it lies, until one is bad.
fn statement_good(store: &[u8], station: Station, i: usize) -> bool
    requires { (length store.now ≡ store_length (size_in store.now)) × (i < most_statements (size_in store.now)) }
    ensures { result ≡ statement_good (alone station) (statement_at store.now i) }
{
    let settings = station.settings;
    let at = STATEMENTS + STATEMENT_SIZE * i;
    let view = fields::get(store, at, 4);
    if !clauses::view_allowed(settings, view) {
        return false;
    }
    let height = fields::get(store, at + HEIGHT, 4);
    let zero = fields::all_zero(store, at + NAME, 32);
    if !block::height_good(height, zero) {
        return false;
    }
    if !clauses::leads(settings, view, fields::get(store, at + AUTHOR, 1)) {
        return false;
    }
    if !vote_in_order(store::voted_at(store, i), station.clock) {
        return false;
    }
    let mask = fields::get(store, at + MASK, 2) as u16;
    if store::kind_at(store, i) == 1 {
        return new_view_said(store, settings, at, view, height, mask);
    }
    propose_said(store, settings, at, height, mask)
}

// Whether every statement is good.
pub fn all_good(store: &[u8], station: Station, count: usize) -> bool
    requires { Counts statement_table store.now count }
    ensures { result ≡ all (statement_good (alone station)) (statements store.now) }
{
    for i in 0..count {
        if !statement_good(store, station, i) {
            return false;
        }
    }
    true
}
