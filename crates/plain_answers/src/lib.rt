// What the plain engine answers of the state that its whole list gives: the rules' answer to an input, or the log.
#![tactic(auto)]

ghost use Rattle.std.specs.Prelude.{◌≡◌, true};
ghost use Rattle.lent_list.specs.Lists.{has_length, has_form, input_of};
ghost use Rattle.lent_list.specs.Plain.{held, plainly, Gives as Answers, left, plain_log};
ghost use Rattle.plain_answers.specs.Meaning.{FoldedTo, Comes};

use lent_list::Refusal;
use plain_tables::Engine;
use settings::Settings;

// The state that the inputs of a list give from fresh, one after another; none where one of them isn't kept.
fn fold(list: &[u8]) -> Option<Engine>
    requires { (has_length list.now ≡ true) × (has_form list.now ≡ true) }
    ensures { FoldedTo (held list.now) result }
{
    let mut out = [0u8; Settings::LEAST_OUT];
    let mut engine = Engine::fresh(lent_list::settings_in(list));
    let count = (list.len() - lent_list::HEAD) / slots::LENGTH;
    for place in 0..count {
        match lent_list::held_at(list, place) {
            None => continue,
            Some(held) => {
                let t = plain_inputs::turn_by(engine, held.kind, held.input, &mut out);
                if !slots::is_kept(t.number) {
                    return None;
                }
                engine = t.engine;
            }
        }
    }
    Some(engine)
}

// An input comes: barred, or what the rules say of the state that the whole list gives, which then keeps the input.
pub fn answered(list: &mut [u8], out: &mut [u8], kind: u64, input: &[u8]) -> u64
    requires { Comes kind input.now }
    ensures { Answers (plainly (input_of kind input.now) list.old out.old) result list.new out.new }
{
    let number = plain_lists::barred(list, out);
    if number != 0 {
        return lent_list::refuse(number);
    }
    let Some(engine) = fold(list) else {
        return Refusal::Malformed.answer();
    };
    let mut said = [0u8; Settings::LEAST_OUT];
    let t = plain_inputs::turn_by(engine, kind, input, &mut said);
    list_writer::enter(list, out, kind, input, t.number, &said[0..t.count])
}

// The log of a list's station.
pub fn log_of(list: &[u8], out: &mut [u8]) -> u64
    ensures { left result out.new ≡ plain_log list.now out.old }
{
    let number = plain_lists::barred(list, out);
    if number != 0 {
        return lent_list::refuse(number);
    }
    let Some(engine) = fold(list) else {
        return Refusal::Malformed.answer();
    };
    plain_names::write_log(engine.log, out) as u64
}
