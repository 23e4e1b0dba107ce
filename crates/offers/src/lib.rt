// Whether an offered name is to be taken, and the propose that it makes.
#![tactic(auto)]

ghost use Rattle.std.specs.Prelude.{◌≡◌, ◌+◌};
ghost use Rattle.rules.specs.Inputs as inputs;
ghost use Rattle.fields.specs.Names.{name_of};
ghost use Rattle.store.specs.Decode.{state_of};
ghost use Rattle.acts.specs.Works.{Formed};
ghost use Rattle.offers.specs.Offers.{offer_of, may_offer, extension};

use fields::Name;
use settings::Settings;
use store::Station;
use wire::Statement;

// Whether a station may offer a name: it leads its view, which is opened, and the name is neither zero nor used.
fn may_offer(store: &[u8], name: Name) -> bool
    requires { Formed store.now }
    ensures { result ≡ may_offer (name_of name) (state_of store.now) }
{
    let station = Station::load(store);
    let fresh = !name.is_zero() & !search::is_used(store, name);
    moments::leads(store) & search::is_opened(store, station.view) & fresh
}

// The propose of a name above the top of the view, if that one is certified and below the last height.
fn extended(store: &[u8], name: Name) -> Option<Statement>
    requires { Formed store.now }
    ensures { offer_of result ≡ extension (name_of name) (state_of store.now) }
{
    let station = Station::load(store);
    let settings = station.settings;
    let view = station.view;
    let Some(i) = search::top(store, view) else {
        return None;
    };
    let top = store::statement_at(store, i);
    let mask = certificates::voters(store, words::own_block(top, 0));
    if !settings.quorum(mask as u64) {
        return None;
    }
    if Settings::LAST_HEIGHT <= top.height as u64 {
        return None;
    }
    let link = top.name;
    Some(Statement {
        is_new_view: false,
        view,
        height: top.height + 1,
        name,
        link,
        mask,
        author: settings.own as u8,
    })
}

// What the offer of a name makes, if it is to be taken.
pub fn offered(store: &[u8], name: Name) -> Option<Statement>
    requires { Formed store.now }
    ensures { offer_of result ≡ inputs.offered (name_of name) (state_of store.now) }
{
    if !may_offer(store, name) {
        return None;
    }
    extended(store, name)
}
