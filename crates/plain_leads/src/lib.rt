// The leader's new-view on a station held by value, for the plain engine, straight from its definition.
#![tactic(auto)]

ghost use Rattle.std.specs.Prelude.{◌≡◌, ◌+◌, ◌≤◌, length};
ghost use Rattle.rules.specs.Inputs as inputs;
ghost use Rattle.wire.specs.Meaning.{message_of};
ghost use Rattle.plain_tables.specs.Meaning.{state, Sized};
ghost use Rattle.plain_acts.specs.Works.{Worked};
ghost use Rattle.plain_messages.specs.Whole.{Whole};

use fields::Name;
use plain_acts::Work;
use plain_tables::Engine;
use wire::{Message, Statement};

// "Its leader at exactly entry+2D+1".
fn leads_now(e: Engine) -> bool
    requires { Sized e }
    ensures { result ≡ inputs.leads_now (state e) }
{
    let leading = plain_offers::leads(e);
    let due = u64::from(e.entry) + 2 * e.settings.delay + 1;
    leading & (u64::from(e.clock) == due)
}

// "A new-view from the highest certificate of an earlier view".
fn own_new_view(e: Engine) -> Message
    requires { Sized e }
    ensures { message_of result ≡ inputs.own_new_view (state e) }
{
    let best = e.tallies.highest(e.settings, e.view);
    Message::Stated(Statement {
        is_new_view: true,
        view: e.view,
        height: best.height,
        name: best.name,
        link: Name {
            first: 0,
            second: 0,
            third: 0,
            fourth: u64::from(best.view),
        },
        mask: best.mask,
        author: e.settings.own as u8,
    })
}

// The leader makes its new-view, and handles it as one that came.
pub fn lead(e: Engine, out: &mut [u8], at: usize) -> Work
    requires { (Whole e) × (at + 200 ≤ length out.old) }
    ensures { Worked (inputs.lead (state e)) out.old at result out.new }
{
    if !leads_now(e) {
        return Work { engine: e, at };
    }
    let made = own_new_view(e);
    plain_messages::handled(e, made, out, at)
}
