// Whoever joins a tally of the lent store, opened if missing.
#![tactic(auto)]

ghost use Rattle.std.specs.Prelude.{◌≡◌, ◌+◌, ◌^◌, ◌≤◌, ◌<◌, length};
ghost use Rattle.std.proofs.Math.Option.{none};
ghost use Rattle.rules.specs.Limits.{most_tallies, last_clock};
ghost use Rattle.rules.specs.Words.{join, join_certificate, moment};
ghost use Rattle.fields.specs.Records.{puts};
ghost use Rattle.words.specs.Meaning.{block_of};
ghost use Rattle.store.specs.Layout.{tally_format, tally_size, tally_table, size_in, count_of};
ghost use Rattle.store.specs.Decode.{tally_values, tallies, state_of, Form, Left};
ghost use Rattle.tallies.specs.Values.{told, opener_number, reached_number};
ghost use Rattle.tallies.specs.Meaning.{tally_of, moment_of, voters_of, author_of, Numbered, with_voters};
ghost use Rattle.store.specs.Searches.{block_at};
ghost use Rattle.joining.specs.Changes.{growing, Fits, Voted, opening, joining, Joined, certifying};

use store::Station;
use tallies::{Moment, Tally, Voters};
use words::Certificate;

// What the store's station tells a joining.
fn moment_in(store: &[u8], voters: Voters) -> Moment
    requires { (Form store.now) × (Numbered voters) }
    ensures { moment_of result ≡ moment (author_of voters) (state_of store.now) }
{
    let opener = voters.opener();
    let station = Station::load(store);
    Moment {
        settings: station.settings,
        clock: station.clock,
        opener,
    }
}

// The number of who opened a tally, as a record has it: 0 nobody, else one more than the author.
fn opener_number(opener: Option<u8>) -> u64
    ensures { result ≡ opener_number (told opener) }
{
    opener.map_or(0, |author| u64::from(author) + 1)
}

// The number of when a tally first had a quorum, as a record has it: 0 not yet, else one more than the clock.
fn reached_number(reached: Option<u32>) -> u64
    ensures { result ≡ reached_number (told reached) }
{
    reached.map_or(0, |clock| u64::from(clock) + 1)
}

// Writes a tally's record.
fn put_tally(store: &mut [u8], at: usize, tally: Tally)
    requires { at + tally_size ≤ length store.old }
    ensures { store.new ≡ puts store.old at tally_format (tally_values (tally_of tally)) }
{
    records::put_certificate(store, at, tally.block);
    fields::put(store, at + store::OPENER, 1, opener_number(tally.opener));
    fields::put(store, at + store::REACHED, 4, reached_number(tally.reached));
}

// A tally is opened behind the others, at the place given back.
fn open_tally(store: &mut [u8], tally: Tally) -> usize
    requires { (Form store.old) × (count_of tally_table store.old < most_tallies (size_in store.old)) × (Fits tally) }
    ensures { (result ≡ count_of tally_table store.old) × (Left store.new (opening (tally_of tally) (state_of store.old))) }
{
    let count = store::get_count(store, store::TALLY_COUNT);
    put_tally(store, store::tally_place(store, count), tally);
    fields::put(store, store::TALLY_COUNT, 2, (count + 1) as u64);
    count
}

// Tally i has its new mask and clock.
fn put_voters(store: &mut [u8], i: usize, mask: u16, reached: Option<u32>)
    requires { (Form store.old) × (i < count_of tally_table store.old) × (reached_number (told reached) < 256 ^ 4) }
    ensures { Voted store.old i mask (reached_number (told reached)) store.new }
{
    let at = store::tally_place(store, i);
    fields::put(store, at + store::VOTERS, 2, u64::from(mask));
    fields::put(store, at + store::REACHED, 4, reached_number(reached));
}

// Whoever joins tally i.
fn join_at(store: &mut [u8], i: usize, moment: Moment, voters: Voters)
    requires { (Form store.old) × (i < count_of tally_table store.old) × (moment.clock ≤ last_clock) × (Numbered voters) }
    ensures { Left store.new (growing (moment_of moment) i (voters_of voters) (state_of store.old)) }
{
    let tally = store::tally_at(store, i).joined(moment, voters);
    put_voters(store, i, tally.block.mask, tally.reached);
}

// Whoever joins the tally of a block, opened if missing, as a search found it; gives back where it now stands.
pub fn join_found(
    store: &mut [u8],
    block: Certificate,
    place: Option<usize>,
    voters: Voters,
) -> usize
    requires { (Form store.old) × (length (join (moment (author_of voters) (state_of store.old)) (with_voters (voters_of voters) (block_of block)) (tallies store.old)) ≤ most_tallies (size_in store.old)) × (place ≡ block_at (block_of block) (tallies store.old)) × ((state_of store.old).clock ≤ last_clock) × (Numbered voters) }
    ensures { Joined (author_of voters) (with_voters (voters_of voters) (block_of block)) (state_of store.old) store.new result }
{
    let moment = moment_in(store, voters);
    match place {
        Some(i) => {
            join_at(store, i, moment, voters);
            i
        }
        None => open_tally(store, Tally::empty(block, moment).joined(moment, voters)),
    }
}

// A certificate's mask joins the tally of its block, with the search.
fn join_tally(store: &mut [u8], certificate: Certificate)
    requires { (Form store.old) × (length (join (moment none (state_of store.old)) (block_of certificate) (tallies store.old)) ≤ most_tallies (size_in store.old)) × ((state_of store.old).clock ≤ last_clock) }
    ensures { Left store.new (joining none (block_of certificate) (state_of store.old)) }
{
    let place = store::find_tally(store, certificate);
    join_found(store, certificate, place, Voters::Mask(certificate.mask));
}

// The same, but that genesis has no tally in view 0.
pub fn join_certificate(store: &mut [u8], certificate: Certificate)
    requires { (Form store.old) × (length (join_certificate (moment none (state_of store.old)) (block_of certificate) (tallies store.old)) ≤ most_tallies (size_in store.old)) × ((state_of store.old).clock ≤ last_clock) }
    ensures { Left store.new (certifying none (block_of certificate) (state_of store.old)) }
{
    if certificate.view != 0 {
        join_tally(store, certificate);
    }
}
