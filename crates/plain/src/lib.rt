// The plain engine's calls: each works out its answer from the whole list, straight from the rules.
#![tactic(auto)]

ghost use Rattle.std.specs.Prelude.{◌≡◌};
ghost use Rattle.lent_list.specs.Plain.{plain_step, plain_tick, plain_offer, Gives as Answers, left, plain_log};

use lent_list::Refusal;
use plain_answers::answered;

// A tick.
#[unsafe(no_mangle)]
pub extern "C" fn plain_tick(list: &mut [u8], out: &mut [u8]) -> u64
    ensures { Answers (plain_tick list.old out.old) result list.new out.new }
{
    answered(list, out, 1, b"")
}

// A message.
#[unsafe(no_mangle)]
pub extern "C" fn plain_step(list: &mut [u8], message: &[u8], out: &mut [u8]) -> u64
    ensures { Answers (plain_step message.now list.old out.old) result list.new out.new }
{
    answered(list, out, 3, message)
}

// An offered name.
#[unsafe(no_mangle)]
pub extern "C" fn plain_offer(list: &mut [u8], name: &[u8], out: &mut [u8]) -> u64
    ensures { Answers (plain_offer name.now list.old out.old) result list.new out.new }
{
    if name.len() != 32 {
        return Refusal::Lengths.answer();
    }
    answered(list, out, 2, name)
}

// The log of a list's station.
#[unsafe(no_mangle)]
pub extern "C" fn plain_log(list: &[u8], out: &mut [u8]) -> u64
    ensures { left result out.new ≡ plain_log list.now out.old }
{
    plain_answers::log_of(list, out)
}
