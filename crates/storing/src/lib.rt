// Where the tallies of a block stand and whether records are free for them; whoever votes for a block joined, and a new statement
// stored, as they were found.
#![tactic(auto)]

ghost use Rattle.std.specs.Prelude.{◌≡◌, ◌≤◌, ◌<◌, length};
ghost use Rattle.std.proofs.Math.Option.{none};
ghost use Rattle.rules.specs.Limits.{mask_bits, most_tallies, last_clock};
ghost use Rattle.rules.specs.Words.{message as said, join_certificate, moment};
ghost use Rattle.rules.specs.Inputs as inputs;
ghost use Rattle.wire.specs.Meaning.{statement_of};
ghost use Rattle.store.specs.Layout.{size_in};
ghost use Rattle.store.specs.Decode.{state_of, tallies, Form, Left};
ghost use Rattle.tallies.specs.Meaning.{with_voters, voters_of, author_of, Numbered};
ghost use Rattle.joining.specs.Changes.{certifying};
ghost use Rattle.kept.specs.Said.{Sendable};
ghost use Rattle.words.specs.Meaning.{block_of};
ghost use Rattle.storing.specs.Records.{certified_at, needed, used_by, Tried, Newly, Stored};

use settings::Settings;
use store::Station;
use tallies::Voters;
use wire::Statement;
use words::Certificate;

// The place of a certificate's tally. Genesis has none in view 0, and nothing is searched.
pub fn find_certificate(store: &[u8], certificate: Certificate) -> Option<usize>
    requires { Form store.now }
    ensures { result ≡ certified_at (block_of certificate) (tallies store.now) }
{
    if certificate.view == 0 {
        return None;
    }
    store::find_tally(store, certificate)
}

// How many records the tally of a block needs by its place: none where it is there, nor for genesis in view 0.
pub fn needed(block: Certificate, place: Option<usize>) -> usize
    ensures { result ≡ needed (block_of block) place }
{
    if block.view == 0 {
        return 0;
    }
    match place {
        Some(_) => 0,
        None => 1,
    }
}

// Whoever joins the tally of a block, as it was found; genesis has none in view 0.
fn join_certified(store: &mut [u8], block: Certificate, place: Option<usize>, voters: Voters)
    requires { (Form store.old) × (length (join_certificate (moment (author_of voters) (state_of store.old)) (with_voters (voters_of voters) (block_of block)) (tallies store.old)) ≤ most_tallies (size_in store.old)) × (place ≡ certified_at (block_of block) (tallies store.old)) × (Numbered voters) × ((state_of store.old).clock ≤ last_clock) }
    ensures { Left store.new (certifying (author_of voters) (with_voters (voters_of voters) (block_of block)) (state_of store.old)) }
{
    if block.view != 0 {
        joining::join_found(store, block, place, voters);
    }
}

// Whether a vote would open a tally, by the place of its block's, and its author opened as many as one may.
pub fn used_up(store: &[u8], place: Option<usize>, author: u64) -> bool
    requires { (Form store.now) × (author < mask_bits) }
    ensures { result ≡ used_by place author (tallies store.now) }
{
    match place {
        Some(_) => false,
        None => Settings::MOST_OPENED <= certificates::opened_by(store, author),
    }
}

// A vote or a status joins its tally, as it was found, if the record that it may need is free; if not, nothing changes.
pub fn tallied(store: &mut [u8], block: Certificate, place: Option<usize>, voters: Voters) -> bool
    requires { (Form store.old) × (place ≡ certified_at (block_of block) (tallies store.old)) × (Numbered voters) × ((state_of store.old).clock ≤ last_clock) }
    ensures { Tried (inputs.tallied (author_of voters) (with_voters (voters_of voters) (block_of block)) (state_of store.old)).now (state_of store.old) store.new result }
{
    let station = Station::load(store);
    if store::most_tallies_in(store) < station.tallies + needed(block, place) {
        return false;
    }
    join_certified(store, block, place, voters);
    true
}

// A new statement is stored, and the tallies of its two blocks are opened as they were found; gives back where its own now stands.
pub fn store_new(
    store: &mut [u8],
    x: Statement,
    certified: Option<usize>,
    own: Option<usize>,
) -> usize
    requires { (Form store.old) × (Sendable (state_of store.old).settings (said (statement_of x none))) × (Newly (statement_of x none) (state_of store.old) certified own) × ((state_of store.old).clock ≤ last_clock) }
    ensures { Stored (statement_of x none) (state_of store.old) store.new result }
{
    let certificate = words::certificate_of(x);
    join_certified(
        store,
        certificate,
        certified,
        Voters::Mask(certificate.mask),
    );
    let opened = joining::join_found(store, words::own_block(x, 0), own, Voters::Mask(0));
    records::append_statement(store, x);
    opened
}
