// What a rule does to a station held by value, and what it says: the parts that messages, offers and ticks share, each straight from
// its definition. What is said goes into an out buffer from a place on.
#![tactic(auto)]

ghost use Rattle.std.specs.Prelude.{◌≡◌, [], ◌+◌, ◌<◌, ◌≤◌, length};
ghost use Rattle.std.proofs.Math.Option.{none};
ghost use Rattle.rules.specs.Limits.{mask_bits, last_view_small};
ghost use Rattle.rules.specs.Sizes as sizes;
ghost use Rattle.rules.specs.Messages.{outgoing};
ghost use Rattle.rules.specs.Words as words;
ghost use Rattle.rules.specs.Inputs as inputs;
ghost use Rattle.wire.specs.Meaning.{statement_of, Linked};
ghost use Rattle.outgoing.specs.Wrote.{Says};
ghost use Rattle.plain_words.specs.Meaning.{certificate_of, Certifies};
ghost use Rattle.plain_statements.specs.Meaning as statement_room;
ghost use Rattle.plain_tallies.specs.Meaning as tally_room;
ghost use Rattle.plain_tallies.specs.Meaning.{opener_of, moment_of};
ghost use Rattle.plain_tables.specs.Meaning.{state, Sized, Gives};
ghost use Rattle.plain_acts.specs.Works.{Worked};

use plain_tables::{Engine, Phase};
use plain_tallies::Moment;
use plain_words::Certificate;
use wire::{Message, Statement};

// A station on the way, and the place where what it said ends.
#[derive(Clone, Copy)]
pub struct Work {
    pub engine: Engine,
    pub at: usize,
}

// "The station is in that view".
pub fn is_in(e: Engine, view: u32) -> bool
    ensures { result ≡ inputs.is_in view (state e) }
{
    match e.phase {
        Phase::InView => view == e.view,
        _ => false,
    }
}

// "Quitting ends voting and commit timers of the view".
pub fn quit(e: Engine) -> Engine
    requires { Sized e }
    ensures { Gives result (inputs.quit [] (state e)).now }
{
    e.with_phase(Phase::Waiting(e.clock))
}

// What the station tells a joining: its settings and its clock.
pub fn moment_of(e: Engine, opener: Option<u8>) -> Moment
    ensures { moment_of result ≡ words.moment (opener_of opener) (state e) }
{
    Moment {
        settings: e.settings,
        clock: e.clock,
        opener,
    }
}

// A new-view whose certificate ranks below the lock is not voted for.
fn below_lock(e: Engine, x: Statement) -> bool
    requires { Certifies (statement_of x none) }
    ensures { result ≡ inputs.below_lock (statement_of x none) (state e) }
{
    x.is_new_view & plain_words::below(plain_words::certificate_of(x), e.lock)
}

// "Vote, status join their tally, opened if missing".
pub fn tallied(e: Engine, opener: Option<u8>, t: Certificate) -> Engine
    requires { (Sized e) × (e.tallies.count < tally_room.room) }
    ensures { Gives result (inputs.tallied (opener_of opener) (certificate_of t) (state e)).now }
{
    let moment = moment_of(e, opener);
    let now = e.tallies.join_certificate(moment, t);
    e.with_tables(e.statements, now)
}

// "Its certificate mask joins its tally".
pub fn certificate_joined(e: Engine, x: Statement) -> Engine
    requires { (Sized e) × (e.tallies.count < tally_room.room) × (Certifies (statement_of x none)) }
    ensures { Gives result (inputs.certificate_joined (statement_of x none) (state e)) }
{
    let moment = moment_of(e, None);
    let certificate = plain_words::certificate_of(x);
    let now = e.tallies.join_certificate(moment, certificate);
    e.with_tables(e.statements, now)
}

// "If new, it is stored with the mask as received, and tallies exist from now on for its certified block and its own block".
pub fn stored(e: Engine, x: Statement) -> Engine
    requires { (Sized e) × (e.statements.count < statement_room.room) × (e.tallies.count + 1 < tally_room.room) × (Certifies (statement_of x none)) }
    ensures { Gives result (inputs.stored (statement_of x none) (state e)) }
{
    let moment = moment_of(e, None);
    let certificate = plain_words::certificate_of(x);
    let block = plain_words::own_block(x, 0);
    let more = e.statements.push(x);
    let certified = e.tallies.join_certificate(moment, certificate);
    let opened = certified.join(moment, block);
    e.with_tables(more, opened)
}

// The mask of one station.
pub fn mask_of(station: u64) -> u16
    requires { station < mask_bits }
    ensures { result ≡ sizes.only station }
{
    settings::only(station) as u16
}

// "Adds the own vote and notes the clock".
fn voted_for(e: Engine, x: Statement) -> Engine
    requires { (Sized e) × (e.tallies.count < tally_room.room) }
    ensures { Gives result (inputs.voted_for (statement_of x none) (state e)) }
{
    let moment = moment_of(e, None);
    let block = plain_words::own_block(x, mask_of(e.settings.own));
    let noted = e.statements.noted(x, e.clock);
    let joined = e.tallies.join(moment, block);
    e.with_tables(noted, joined)
}

// "Sends the statement, then the vote".
fn ballot(e: Engine, x: Statement, out: &mut [u8], at: usize) -> usize
    requires { (Sized e) × (Linked x) × (at + 200 ≤ length out.old) }
    ensures { Says out.old at (outgoing (inputs.ballot (statement_of x none) (state e))) out.new result }
{
    let own = e.settings.own as u8;
    let vote = Message::Vote {
        view: x.view,
        height: x.height,
        name: x.name,
        author: own,
    };
    let next = effects::to_all(out, at, Message::Stated(x));
    effects::to_all(out, next, vote)
}

// "A propose is voted for; a new-view is voted for if its certificate ranks at or above the lock".
pub fn voting(e: Engine, x: Statement, out: &mut [u8], at: usize) -> Work
    requires { (Sized e) × (e.tallies.count < tally_room.room) × (Certifies (statement_of x none)) × (Linked x) × (at + 200 ≤ length out.old) }
    ensures { Worked (inputs.voting (statement_of x none) (state e)) out.old at result out.new }
{
    if below_lock(e, x) {
        return Work { engine: e, at };
    }
    let next = ballot(e, x, out, at);
    let engine = voted_for(e, x);
    Work { engine, at: next }
}

// The blame mask of a view.
pub fn blames_of(e: Engine, view: u32) -> u16
    requires { view ≤ last_view_small }
    ensures { result ≡ inputs.blames_of view (state e) }
{
    e.blames[view as usize]
}

// "Blame, blame set join the view's mask".
pub fn blamed(e: Engine, view: u32, mask: u16) -> Engine
    requires { (Sized e) × (view ≤ last_view_small) }
    ensures { Gives result (inputs.blamed view mask (state e)) }
{
    let mut blames = e.blames;
    blames[view as usize] |= mask;
    e.with_blames(blames)
}

// The "blame mask is full".
pub fn blame_full(e: Engine, view: u32) -> bool
    requires { view ≤ last_view_small }
    ensures { result ≡ inputs.blame_full view (state e) }
{
    e.settings.quorum(u64::from(blames_of(e, view)))
}

// "At f+1, while the station is in that view, it sends the set (the mask now held) and quits. Otherwise they are only kept".
pub fn blaming(e: Engine, view: u32, mask: u16, out: &mut [u8], at: usize) -> Work
    requires { (Sized e) × (view ≤ last_view_small) × (at + 200 ≤ length out.old) }
    ensures { Worked (inputs.blaming view mask (state e)) out.old at result out.new }
{
    let kept = blamed(e, view, mask);
    let inside = is_in(kept, view);
    let full = blame_full(kept, view);
    if inside & full {
        let held = blames_of(kept, view);
        let next = effects::to_all(out, at, Message::BlameSet { view, mask: held });
        let engine = quit(kept);
        return Work { engine, at: next };
    }
    Work { engine: kept, at }
}
