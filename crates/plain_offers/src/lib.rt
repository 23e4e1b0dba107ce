// What the offer of a name to a station held by value makes, and what it is answered, each function straight from its definition.
#![tactic(auto)]

ghost use Rattle.std.specs.Prelude.{◌≡◌, ◌^◌, ◌<◌, ◌≤◌, length};
ghost use Rattle.std.proofs.Math.Option.{none};
ghost use Rattle.rules.specs.Inputs as inputs;
ghost use Rattle.rules.specs.Refusals as refusals;
ghost use Rattle.fields.specs.Names.{name_of};
ghost use Rattle.wire.specs.Meaning.{statement_of};
ghost use Rattle.plain_tables.specs.Meaning.{state, Sized};
ghost use Rattle.plain_messages.specs.Whole.{Whole};
ghost use Rattle.plain_turns.specs.Turns.{Answered};
ghost use Rattle.plain_offers.specs.Offers.{offer_of, may_offer, extension};

use fields::Name;
use plain_tables::Engine;
use plain_turns::Turn;
use settings::Settings;
use wire::{Message, Statement};

// "Is in a view, leads it".
pub fn leads(e: Engine) -> bool
    requires { Sized e }
    ensures { result ≡ inputs.leads (state e) }
{
    let inside = plain_acts::is_in(e, e.view);
    let leader = e.settings.leader(u64::from(e.view));
    inside & (leader == e.settings.own)
}

// The station leads a view that is opened, and the name is neither zero nor used.
fn may_offer(e: Engine, name: Name) -> bool
    requires { Sized e }
    ensures { result ≡ may_offer (name_of name) (state e) }
{
    let leading = leads(e);
    let opened = e.statements.is_opened(e.view);
    let zero = name.is_zero();
    let used = e.statements.is_used(name);
    leading & opened & !zero & !used
}

// "The propose above that one, with the tally's mask", if it "is certified in this view, that height is below 65,535".
fn extended(e: Engine, x: Statement, name: Name) -> Option<Statement>
    requires { Sized e }
    ensures { offer_of result ≡ extension (statement_of x none) (name_of name) (state e) }
{
    let mask = e.tallies.voters(plain_words::own_block(x, 0));
    let certified = e.settings.quorum(u64::from(mask));
    if certified & ((x.height as u64) < Settings::LAST_HEIGHT) {
        return Some(Statement {
            is_new_view: false,
            view: e.view,
            height: x.height + 1,
            name,
            link: x.name,
            mask,
            author: e.settings.own as u8,
        });
    }
    None
}

// What an offer makes, if it is to be taken.
fn offered(e: Engine, name: Name) -> Option<Statement>
    requires { Sized e }
    ensures { offer_of result ≡ inputs.offered (name_of name) (state e) }
{
    if !may_offer(e, name) {
        return None;
    }
    match e.statements.top(e.view) {
        Some(held) => extended(e, held.statement, name),
        None => None,
    }
}

// An offer: 3, then 9, "offer not to be taken", and 6.
pub fn offer(e: Engine, name: Name, out: &mut [u8]) -> Turn
    requires { (Whole e) × (name_of name < 256 ^ 32) × (200 ≤ length out.old) }
    ensures { Answered (refusals.offer (name_of name) (state e)) result out.new }
{
    if !plain_turns::running(e) {
        return plain_turns::refused(3, e);
    }
    match offered(e, name) {
        Some(x) => {
            let w = plain_messages::handled(e, Message::Stated(x), out, 0);
            plain_turns::if_room(e, w)
        }
        None => plain_turns::refused(9, e),
    }
}
