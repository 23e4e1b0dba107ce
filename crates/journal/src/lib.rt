// A journal over slots: the place for the next record, and writing it there.
#![tactic(auto)]

ghost use Rattle.std.specs.Prelude.{◌≡◌, ◌<◌};
ghost use Rattle.slots.specs.Slots.{judged, written};
ghost use Rattle.slot_reader.specs.Meaning.{Judged};
ghost use Rattle.journal.specs.Journal.{slot_count, slot_at, writing};
ghost use Rattle.journal.specs.Meaning.{Found};

use answer::Refusal;
use slot_reader::Slot;

// The place for the next record, and its number.
#[derive(Clone, Copy)]
struct Room {
    records: u64,
    place: usize,
}

// What the slot of a place holds.
pub fn judge_at(journal: &[u8], place: usize) -> Slot<'_>
    requires { place < slot_count journal.now }
    ensures { Judged (judged (slot_at journal.now place)) result }
{
    let at = place * slots::LENGTH;
    let end = at + slots::LENGTH;
    slot_reader::judge(&journal[at..end])
}

// The first blank slot, if nothing before it stops a replay.
fn find_room(journal: &[u8]) -> Option<Room>
    ensures { Found journal.now result }
{
    let count = journal.len() / slots::LENGTH;
    let mut records: u64 = 0;
    for place in 0..count {
        match judge_at(journal, place) {
            Slot::Blank => return Some(Room { records, place }),
            Slot::Torn => {}
            Slot::Bad => return None,
            Slot::Whole { sequence, .. } => {
                if sequence != records {
                    return None;
                }
                records += 1;
            }
        }
    }
    None
}

// Writes the record of an input into the first blank slot.
#[unsafe(no_mangle)]
pub extern "C" fn journal_write(journal: &mut [u8], kind: u64, input: &[u8]) -> u64
    ensures { written result journal.new ≡ writing journal.old kind input.now }
{
    let count = journal.len() / slots::LENGTH;
    if 4_294_967_295 < count {
        return Refusal::Journal.answer();
    }
    if slots::is_input(kind, input) {
        let Some(room) = find_room(journal) else {
            return Refusal::Journal.answer();
        };
        let at = room.place * slots::LENGTH;
        let end = at + slots::LENGTH;
        slots::write_record(&mut journal[at..end], room.records, kind, input);
        return room.place as u64;
    }
    Refusal::Journal.answer()
}
