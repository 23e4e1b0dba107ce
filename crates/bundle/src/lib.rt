// Writing a flat relay envelope: all messages are looked at first, so that a refusal writes nothing.
#![tactic(auto)]

ghost use Rattle.std.specs.Prelude.{◌≡◌, ◌+◌, ◌*◌};
ghost use Rattle.outgoing.specs.Wrote.{wrote};
ghost use Rattle.slots.specs.Slots.{written};
ghost use Rattle.bundle.specs.Writing.{is_message_at, bundled, writing};
ghost use Rattle.bundle.specs.Meaning.{total_of, bundle_in, MayWrite};

use answer::Refusal;

// Whether a readable message stands at a place of some bytes.
fn is_message_at(bytes: &[u8], offset: u32, size: u32) -> bool
    ensures { result ≡ is_message_at bytes.now (record { offset = offset; size = size }) }
{
    let from = offset as usize;
    let end = from + size as usize;
    if bytes.len() < end {
        return false;
    }
    slots::is_readable(&bytes[from..end])
}

// How many bytes the envelope of the listed messages has, if it may be written.
fn total_of(bytes: &[u8], list: &[u8]) -> Option<usize>
    ensures { result ≡ total_of (bundled bytes.now list.now) }
{
    let count = list.len() / 8;
    let mut total: usize = 3;
    for k in 0..count {
        let offset = fields::get(list, k * 8, 4) as u32;
        let size = fields::get(list, k * 8 + 4, 4) as u32;
        if !is_message_at(bytes, offset, size) {
            return None;
        }
        total = total + 3 + size as usize;
        if items::MOST_BYTES < total {
            return None;
        }
    }
    Some(total)
}

// Writes the envelope of the listed messages.
fn write_bundle(bytes: &[u8], list: &[u8], out: &mut [u8], total: usize)
    requires { MayWrite bytes.now list.now out.old total }
    ensures { out.new ≡ wrote out.old 0 (bundle_in bytes.now list.now) }
{
    fields::put(out, 0, 3, 0x30_0000 + total as u64 - 3);
    let count = list.len() / 8;
    let mut at: usize = 3;
    for k in 0..count {
        let offset = fields::get(list, k * 8, 4) as usize;
        let size = fields::get(list, k * 8 + 4, 4) as usize;
        let end = offset + size;
        fields::put(out, at, 3, 0x31_0000 + size as u64);
        slots::copy(out, at + 3, &bytes[offset..end]);
        at = at + 3 + size;
    }
}

// Writes the messages at the listed places as one flat envelope.
#[unsafe(no_mangle)]
pub extern "C" fn envelope_write(bytes: &[u8], list: &[u8], out: &mut [u8]) -> u64
    ensures { written result out.new ≡ writing bytes.now list.now out.old }
{
    if list.len() % 8 != 0 {
        return Refusal::Lengths.answer();
    }
    if out.len() < items::MOST_BYTES {
        return Refusal::Lengths.answer();
    }
    let Some(total) = total_of(bytes, list) else {
        return Refusal::Envelope.answer();
    };
    write_bundle(bytes, list, out, total);
    total as u64
}
