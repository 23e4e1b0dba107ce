// The blame of a tick on a station held by value, for the plain engine, straight from its definition.
#![tactic(auto)]

ghost use Rattle.std.specs.Prelude.{◌≡◌, ◌+◌, ◌*◌, ◌≤◌, length};
ghost use Rattle.rules.specs.Limits.{last_view_small, most_delay};
ghost use Rattle.rules.specs.Inputs as inputs;
ghost use Rattle.plain_tables.specs.Meaning.{room, state, Sized};
ghost use Rattle.plain_acts.specs.Works.{Worked};

use plain_acts::Work;
use plain_tables::Engine;
use wire::Message;

// "(2m+6)D+2", m being proposes voted for.
fn patience(m: usize, delay: u64) -> u64
    requires { (m ≤ room) × (delay ≤ most_delay) }
    ensures { result ≡ (2 * m + 6) * delay + 2 }
{
    (2 * (m as u64) + 6) * delay + 2
}

// "In a view and with its own bit clear in that view's blame mask, if clock minus entry is at least (2m+6)D+2".
fn overdue(e: Engine) -> bool
    requires { (Sized e) × (e.view ≤ last_view_small) }
    ensures { result ≡ inputs.overdue (state e) }
{
    let settings = e.settings;
    let statements = e.statements;
    let inside = plain_acts::is_in(e, e.view);
    let mask = plain_acts::blames_of(e, e.view);
    let blamed = settings::holds(mask as u64, settings.own);
    let voted = plain_orders::votes(e.view, statements);
    let most = patience(voted, settings.delay);
    let ago = plain_orders::since(e.clock, e.entry);
    inside & !blamed & (most <= ago)
}

// "Send a blame and join it to the mask; at f+1 send the set and quit".
pub fn complain(e: Engine, out: &mut [u8], at: usize) -> Work
    requires { (Sized e) × (e.view ≤ last_view_small) × (at + 300 ≤ length out.old) }
    ensures { Worked (inputs.complain (state e)) out.old at result out.new }
{
    if !overdue(e) {
        return Work { engine: e, at };
    }
    let settings = e.settings;
    let own = settings.own;
    let blame = Message::Blame {
        view: e.view,
        author: own as u8,
    };
    let next = effects::to_all(out, at, blame);
    let mask = settings::only(own) as u16;
    plain_acts::blaming(e, e.view, mask, out, next)
}
