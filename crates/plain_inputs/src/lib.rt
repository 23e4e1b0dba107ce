// An input of the plain engine's list, handed to a station held by value: a tick, an offered name or a message, by its kind.
#![tactic(auto)]

ghost use Rattle.std.specs.Prelude.{◌≡◌, ◌≤◌, length};
ghost use Rattle.rules.specs.Limits.{least_out_small};
ghost use Rattle.lent_list.specs.Lists.{input_of};
ghost use Rattle.lent_list.specs.Plain.{answer_to};
ghost use Rattle.plain_tables.specs.Meaning.{state};
ghost use Rattle.plain_messages.specs.Whole.{Whole};
ghost use Rattle.plain_turns.specs.Turns.{Answered};

use plain_tables::Engine;
use plain_turns::Turn;

// What an input of a list makes of a station.
pub fn turn_by(e: Engine, kind: u64, input: &[u8], out: &mut [u8]) -> Turn
    requires { (Whole e) × (kind ≡ 2 → length input.now ≡ 32) × (least_out_small ≤ length out.old) }
    ensures { Answered (answer_to (input_of kind input.now) (state e)) result out.new }
{
    if kind == 1 {
        return plain_ticks::tick(e, out);
    }
    if kind == 2 {
        let name = fields::get_name(input, 0);
        return plain_offers::offer(e, name, out);
    }
    plain_turns::step(e, input, out)
}
