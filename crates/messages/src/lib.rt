// A message that is allowed, by its kind, as an outcome in the two buffers: done, or the station stops for want of room.
#![tactic(auto)]

ghost use Rattle.std.specs.Prelude.{◌≡◌, true, ◌+◌, ◌^◌, ◌≤◌, ◌<◌, length, ltb};
ghost use Rattle.std.proofs.Math.Option.{none};
ghost use Rattle.rules.specs.Limits.{most_stations, mask_bits, last_clock};
ghost use Rattle.rules.specs.Sizes.{only};
ghost use Rattle.rules.specs.Messages.{view_of, view_allowed};
ghost use Rattle.rules.specs.Words.{message as said};
ghost use Rattle.rules.specs.Inputs as inputs;
ghost use Rattle.rules.specs.Refusals.{if_room, heard};
ghost use Rattle.wire.specs.Meaning.{statement_of, message_of};
ghost use Rattle.store.specs.Decode.{tallies, state_of, Form};
ghost use Rattle.tallies.specs.Meaning.{with_voters, voters_of, author_of, Numbered};
ghost use Rattle.kept.specs.Said.{Sendable};
ghost use Rattle.words.specs.Meaning.{block_of};
ghost use Rattle.acts.specs.Works.{Formed};
ghost use Rattle.storing.specs.Records.{certified_at};
ghost use Rattle.stops.specs.Answers.{Answers, Mutely};
ghost use Rattle.messages.specs.Votes.{vote_for};

use answer::Refusal;
use store::Cause;
use tallies::Voters;
use wire::{Message, Statement};
use words::Certificate;

// The mask of one author.
fn voter(author: u8) -> u16
    requires { author < most_stations }
    ensures { result ≡ only author }
{
    settings::only(author as u64) as u16
}

// The view that a message is of; a status has none.
fn view_of(message: Message) -> u32
    ensures { result ≡ view_of (message_of message) }
{
    match message {
        Message::Stated(x) => x.view,
        Message::Vote { view, .. } => view,
        Message::Blame { view, .. } => view,
        Message::BlameSet { view, .. } => view,
        Message::Status { .. } => 0,
    }
}

// Whether a message is more than one view ahead of a view.
pub fn is_ahead(view: u32, message: Message) -> bool
    ensures { result ≡ ltb (view + 1) (view_of (message_of message)) }
{
    (view as u64) + 1 < view_of(message) as u64
}

// A statement that may be sent.
pub fn stated(store: &mut [u8], out: &mut [u8], x: Statement) -> u64
    requires { (Formed store.old) × (Sendable (state_of store.old).settings (said (statement_of x none))) × (200 ≤ length out.old) }
    ensures { Answers (if_room (state_of store.old) (inputs.statement (statement_of x none) (state_of store.old))) out.old store.new out.new result }
{
    let plan = plans::planned(store, x);
    if !plans::fits(plan) {
        return stops::stop(store, Refusal::Full, Cause::Full);
    }
    answers::statement(store, out, 0, x, plan) as u64
}

// A vote or a status: whoever joins the tally of a block, as it was found.
fn counted(store: &mut [u8], block: Certificate, place: Option<usize>, voters: Voters) -> u64
    requires { (Form store.old) × (place ≡ certified_at (block_of block) (tallies store.old)) × (Numbered voters) × ((state_of store.old).clock ≤ last_clock) }
    ensures { Mutely (if_room (state_of store.old) (inputs.tallied (author_of voters) (with_voters (voters_of voters) (block_of block)) (state_of store.old))) store.new result }
{
    if !storing::tallied(store, block, place, voters) {
        return stops::stop(store, Refusal::Full, Cause::Full);
    }
    0
}

// A vote for a block: refused where its author would open one tally too many.
fn voted(store: &mut [u8], block: Certificate, author: u64) -> u64
    requires { (Form store.old) × ((block_of block).view ≡ 0 → ⊥) × (author < mask_bits) × ((state_of store.old).clock ≤ last_clock) }
    ensures { Mutely (heard (vote_for (block_of block) author) (state_of store.old)) store.new result }
{
    let place = storing::find_certificate(store, block);
    if storing::used_up(store, place, author) {
        return Refusal::UsedUp.answer();
    }
    counted(store, block, place, Voters::One(author))
}

// A blame or a blame set.
fn blamed(store: &mut [u8], out: &mut [u8], view: u32, mask: u16) -> u64
    requires { (Formed store.old) × (view_allowed (state_of store.old).settings view ≡ true) × (mask < 2 ^ (state_of store.old).settings.n) × (200 ≤ length out.old) }
    ensures { Answers (if_room (state_of store.old) (inputs.blaming view mask (state_of store.old))) out.old store.new out.new result }
{
    acts::blaming(store, out, 0, view, mask) as u64
}

// A message that is allowed, by its kind.
pub fn handled(store: &mut [u8], out: &mut [u8], message: Message) -> u64
    requires { (Formed store.old) × (Sendable (state_of store.old).settings (message_of message)) × (200 ≤ length out.old) }
    ensures { Answers (heard (message_of message) (state_of store.old)) out.old store.new out.new result }
{
    match message {
        Message::Stated(x) => stated(store, out, x),
        Message::Vote {
            view,
            height,
            name,
            author,
        } => {
            let block = Certificate {
                view,
                height,
                name,
                mask: 0,
            };
            voted(store, block, author as u64)
        }
        Message::Blame { view, author } => {
            let mask = voter(author);
            blamed(store, out, view, mask)
        }
        Message::BlameSet { view, mask } => blamed(store, out, view, mask),
        Message::Status {
            height,
            name,
            cert,
            mask,
        } => {
            let block = Certificate {
                view: cert,
                height,
                name,
                mask,
            };
            let place = storing::find_certificate(store, block);
            counted(store, block, place, Voters::Mask(mask))
        }
    }
}
