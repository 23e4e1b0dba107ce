// One input more in the list that a host lends to the plain engine.
#![tactic(auto)]

ghost use Rattle.std.specs.Prelude.{◌≡◌, true, false, ◌<◌, ◌≤◌, ◌^◌, length};
ghost use Rattle.slots.specs.Slots.{is_input, is_kept};
ghost use Rattle.lent_list.specs.Lists.{has_length, is_full, added};
ghost use Rattle.lent_list.specs.Plain.{entering, Gives};

use lent_list::Refusal;

// Adds an input: its record behind the last one, and the number of records in the head.
fn add(list: &mut [u8], kind: u64, input: &[u8])
    requires { (has_length list.old ≡ true) × (is_full list.old ≡ false) × (is_input kind input.now ≡ true) }
    ensures { list.new ≡ added kind input.now list.old }
{
    let records = fields::get(list, 4, 4);
    fields::put(list, 4, 4, records + 1);
    let place = records as usize;
    let at = lent_list::HEAD + place * slots::LENGTH;
    let end = at + slots::LENGTH;
    slots::write_record(&mut list[at..end], records, kind, input);
}

// Whether a list has no slot left.
fn is_full(list: &[u8]) -> bool
    requires { has_length list.now ≡ true }
    ensures { result ≡ is_full list.now }
{
    let slots = (list.len() - lent_list::HEAD) / slots::LENGTH;
    let records = fields::get(list, 4, 4) as usize;
    slots <= records
}

// Enters an input that the rules answered with a number and with the first bytes of a buffer.
pub fn enter(
    list: &mut [u8],
    out: &mut [u8],
    kind: u64,
    input: &[u8],
    number: u64,
    said: &[u8],
) -> u64
    requires list_value { (has_length list.old ≡ true) × (is_kept number ≡ true → is_input kind input.now ≡ true) }
    requires number_bound { (number < 256) × (length said.now < 2 ^ 32) × (length said.now ≤ length out.old) }
    ensures { Gives (entering kind input.now number said.now list.old out.old) result list.new out.new }
{
    if slots::is_kept(number) {
        if is_full(list) {
            return Refusal::NoSlot.answer();
        }
        add(list, kind, input);
        slots::copy(out, 0, said);
        return lent_list::refuse(number) + said.len() as u64;
    }
    lent_list::refuse(number)
}
