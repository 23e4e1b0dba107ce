// The list that a host lends to the plain engine, as it is read: its length, its form, and the inputs that it holds.
#![tactic(auto)]

ghost use Rattle.std.specs.Prelude.{◌≡◌, true, ◌*◌, ◌^◌, ◌<◌};
ghost use Rattle.settings.specs.Made.{settings_of};
ghost use Rattle.settings.specs.declared.Size.TheVariants.{Small};
ghost use Rattle.slots.specs.Slots.{judged};
ghost use Rattle.journal.specs.Journal.{slot_at, slots_of};
ghost use Rattle.lent_list.specs.Lists.{records_in, slots_in, has_length, settings_in, is_placed, are_placed, has_form};
ghost use Rattle.lent_list.specs.Meaning.{Stands};
ghost use Rattle.lent_list.specs.Numbers.{number_of};

use settings::{Settings, Size};
use slot_reader::Slot;

// The bytes of the head, and how many slots a list has at most.
pub const HEAD: usize = 16;

const MOST_SLOTS: usize = 1_048_576;

// Whether a list has one of its lengths.
pub fn has_length(list: &[u8]) -> bool
    ensures { result ≡ has_length list.now }
{
    let size = list.len();
    if size < HEAD {
        return false;
    }
    let slots = (size - HEAD) / slots::LENGTH;
    if size != HEAD + slots::LENGTH * slots {
        return false;
    }
    if slots == 0 {
        return false;
    }
    slots <= MOST_SLOTS
}

// The settings in the head.
pub fn settings_in(list: &[u8]) -> Settings
    requires { has_length list.now ≡ true }
    ensures { (settings_of result ≡ settings_in list.now) × (result.size ≡ Small) }
{
    let n = fields::get(list, 0, 1);
    let delay = fields::get(list, 1, 2);
    let own = fields::get(list, 3, 1);
    Settings {
        n,
        delay,
        own,
        size: Size::Small,
    }
}

// Whether the slot of a place holds what it should in a list of so many records.
fn is_placed(list: &[u8], records: u64, place: usize) -> bool
    requires { (has_length list.now ≡ true) × (place < slots_in list.now) }
    ensures { result ≡ is_placed records place (judged (slot_at (records_in list.now) place)) }
{
    let number = place as u64;
    match journal::judge_at(&list[HEAD..], place) {
        Slot::Blank => records <= number,
        Slot::Torn => false,
        Slot::Bad => false,
        Slot::Whole { sequence, .. } => (number < records) & (sequence == number),
    }
}

// Whether every slot holds what it should.
fn are_placed(list: &[u8], records: u64) -> bool
    requires { has_length list.now ≡ true }
    ensures { result ≡ are_placed records 0 (slots_of (records_in list.now)) }
{
    let count = (list.len() - HEAD) / slots::LENGTH;
    for place in 0..count {
        if !is_placed(list, records, place) {
            return false;
        }
    }
    records <= count as u64
}

// Whether a list has its form.
pub fn has_form(list: &[u8]) -> bool
    requires { has_length list.now ≡ true }
    ensures { result ≡ has_form list.now }
{
    let head = settings_in(list);
    let Some(_) = Settings::new(head.n, head.delay, head.own, Size::Small) else {
        return false;
    };
    if fields::all_zero(list, 8, 8) {
        let records = fields::get(list, 4, 4);
        return are_placed(list, records);
    }
    false
}

// The input of a record: its kind, and its bytes as they stand in the list.
#[derive(Clone, Copy)]
pub struct Held<'a> {
    pub kind: u64,
    pub input: &'a [u8],
}

// The input in the slot of a place, if it holds one.
pub fn held_at(list: &[u8], place: usize) -> Option<Held<'_>>
    requires { (has_length list.now ≡ true) × (place < slots_in list.now) }
    ensures { Stands list.now place result }
{
    match journal::judge_at(&list[HEAD..], place) {
        Slot::Blank => None,
        Slot::Torn => None,
        Slot::Bad => None,
        Slot::Whole { kind, input, .. } => Some(Held { kind, input }),
    }
}

// Why the plain engine refuses an input before the rules are asked, or has no slot for it. These refusals are its own: above settings and
// messages it shares no code with the working station.
#[derive(Clone, Copy, Debug, PartialEq, Eq)]
pub enum Refusal {
    Lengths,
    Malformed,
    BadSettings,
    NoSlot,
}

impl Refusal {
    // Its number.
    fn number(self) -> u64
        ensures { result ≡ number_of self }
    {
        match self {
            Refusal::Lengths => 1,
            Refusal::Malformed => 2,
            Refusal::BadSettings => 10,
            Refusal::NoSlot => 13,
        }
    }

    // What a host is told: the number times 2^32, and no count.
    pub fn answer(self) -> u64
        ensures { result ≡ number_of self * 2 ^ 32 }
    {
        refuse(self.number())
    }
}

// What a host is told of a refusal by its number.
pub fn refuse(number: u64) -> u64
    requires { number < 2 ^ 32 }
    ensures { result ≡ number * 2 ^ 32 }
{
    number << 32
}
