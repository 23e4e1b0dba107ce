// Reading a relay envelope: its items are counted first, and then listed, so that a refusal lists nothing.
#![tactic(auto)]

ghost use Rattle.std.specs.Prelude.{◌≡◌, true, ◌≤◌, length};
ghost use Rattle.outgoing.specs.Wrote.{wrote};
ghost use Rattle.slots.specs.Slots.{written};
ghost use Rattle.envelope.specs.Reading.{least_list, is_envelope, list_in, reading};

use answer::Refusal;
use items::ENVELOPE_TAG;

// The least list: 8 bytes for each message that an envelope can hold.
const LEAST_LIST: usize = 4096;

// Lists the messages of an envelope. What an inner envelope holds stands where its tag and length end, so one walk meets every message.
// A turn goes on by a tag and length or by a whole message, so it is no count of an index.
fn list_messages(s: &[u8], list: &mut [u8])
    requires { (is_envelope s.now ≡ true) × (least_list ≤ length list.old) }
    ensures { list.new ≡ wrote list.old 0 (list_in s.now) }
{
    let mut at: usize = 3;
    let mut to: usize = 0;
    while at < s.len() {
        let from = at + 3;
        if s[at] == ENVELOPE_TAG {
            at = from;
            continue;
        }
        let size = fields::get(s, at + 1, 2);
        fields::put(list, to, 4, from as u64);
        fields::put(list, to + 4, 4, size);
        at = from + size as usize;
        to += 8;
    }
}

// Reads an envelope and lists its messages.
#[unsafe(no_mangle)]
pub extern "C" fn envelope_read(envelope: &[u8], list: &mut [u8]) -> u64
    ensures { written result list.new ≡ reading envelope.now list.old }
{
    if list.len() < LEAST_LIST {
        return Refusal::Lengths.answer();
    }
    let Some(count) = items::read_envelope(envelope) else {
        return Refusal::Envelope.answer();
    };
    list_messages(envelope, list);
    count as u64
}
