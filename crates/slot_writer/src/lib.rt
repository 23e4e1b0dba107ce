// Writing one record into a slot that is blank.
#![tactic(auto)]

ghost use Rattle.std.specs.Prelude.{◌≡◌, length};
ghost use Rattle.slots.specs.Slots.{written, may_put, putting};

use answer::Refusal;

// Whether a record may go into a slot.
fn may_put(slot: &[u8], sequence: u64, kind: u64, input: &[u8]) -> bool
    requires { length slot.now ≡ 128 }
    ensures { result ≡ may_put slot.now sequence kind input.now }
{
    if fields::all_zero(slot, 0, slots::LENGTH) {
        if sequence < 4_294_967_296 {
            return slots::is_input(kind, input);
        }
        return false;
    }
    false
}

// Writes one record into a slot that is blank.
#[unsafe(no_mangle)]
pub extern "C" fn journal_put(slot: &mut [u8], sequence: u64, kind: u64, input: &[u8]) -> u64
    ensures { written result slot.new ≡ putting slot.old sequence kind input.now }
{
    if slot.len() != slots::LENGTH {
        return Refusal::Lengths.answer();
    }
    if may_put(slot, sequence, kind, input) {
        slots::write_record(slot, sequence, kind, input);
        return slots::LENGTH as u64;
    }
    Refusal::Journal.answer()
}
