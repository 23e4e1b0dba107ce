// The writer of slips: the chain of a logged block out of a store, in the bytes that the checker takes. The store is only read.
#![tactic(auto)]

ghost use Rattle.std.specs.Prelude.{◌≡◌, false, ◌+◌, ◌*◌, ◌≤◌, ◌<◌, length, eqb};
ghost use Rattle.rules.specs.Limits.{least_out};
ghost use Rattle.fields.specs.Names.{name_of};
ghost use Rattle.outgoing.specs.Wrote.{Says};
ghost use Rattle.store.specs.Layout.{size_in, statement_table, log_table, count_of};
ghost use Rattle.store.specs.Decode.{statement_at, statements, names, Form};
ghost use Rattle.store.specs.Searches.{first_from};
ghost use Rattle.linked.specs.Links.{is_link};
ghost use Rattle.calls.specs.Calls.{Gives};
ghost use Rattle.slip_entries.specs.Entries.{entry_bytes};
ghost use Rattle.slip.specs.Slips.{entries_bytes, slip_bytes};
ghost use Rattle.slip_writer.specs.Writer.{logged_at, log_chain};
ghost use Rattle.slip_writer.specs.Called.{write_called};

use answer::Refusal;
use fields::Name;
use store::Station;
use wire::Message;

// The place in the log of the first of these names.
fn find_name(store: &[u8], logged: usize, name: Name) -> Option<usize>
    requires { (Form store.now) × (logged ≡ count_of log_table store.now) }
    ensures { result ≡ first_from (eqb (name_of name)) 0 (names store.now) }
{
    for i in 0..logged {
        if name == store::name_at(store, i) {
            return Some(i);
        }
    }
    None
}

// The name logged at a height; below the first stands genesis.
fn logged_at(store: &[u8], height: usize) -> Name
    requires { (Form store.now) × (height ≤ count_of log_table store.now) }
    ensures { name_of result ≡ logged_at (names store.now) height }
{
    if height == 0 {
        return Name::zero();
    }
    store::name_at(store, height - 1)
}

// The place of the first stored propose of a height, a name and a parent.
fn find_link(store: &[u8], stored: usize, height: u32, name: Name, parent: Name) -> Option<usize>
    requires { (Form store.now) × (stored ≡ count_of statement_table store.now) }
    ensures { result ≡ first_from (is_link height (name_of name) (name_of parent)) 0 (statements store.now) }
{
    for i in 0..stored {
        if linked::links(store, i, height, name, parent) {
            return Some(i);
        }
    }
    None
}

// Tag 41: a stored propose.
fn write_entry(store: &[u8], i: usize, out: &mut [u8], at: usize) -> usize
    requires { (Form store.now) × (i < count_of statement_table store.now) × ((statement_at store.now i).is_new_view ≡ false) × (at + 100 ≤ length out.old) }
    ensures { Says out.old at (entry_bytes (statement_at store.now i)) out.new result }
{
    let propose = store::statement_at(store, i);
    fields::put(out, at, 3, 0x41_0061);
    writing::write_message(out, at + 3, Message::Stated(propose))
}

// The chain of the log from a height down to height 1.
fn write_chain(store: &[u8], stored: usize, height: usize, out: &mut [u8], at: usize) -> usize
    requires { (Form store.now) × (stored ≡ count_of statement_table store.now) × (height ≤ count_of log_table store.now) × (at + 100 * height ≤ length out.old) }
    ensures { Says out.old at (entries_bytes (log_chain (statements store.now) (names store.now) height)) out.new result }
{
    let mut next = at;
    for below in (0..height).rev() {
        let left = below + 1;
        let name = logged_at(store, left);
        let parent = logged_at(store, below);
        let Some(i) = find_link(store, stored, left as u32, name, parent) else {
            return next;
        };
        next = write_entry(store, i, out, next);
    }
    next
}

// The slip of the block that is logged at a height.
fn write_slip(store: &[u8], stored: usize, height: usize, name: Name, out: &mut [u8]) -> usize
    requires { (Form store.now) × (stored ≡ count_of statement_table store.now) × (height ≤ count_of log_table store.now) × (least_out (size_in store.now) ≤ length out.old) }
    ensures { Says out.old 0 (slip_bytes (name_of name) (log_chain (statements store.now) (names store.now) height)) out.new result }
{
    fields::put(out, 0, 3, 0x40_0020);
    fields::put_name(out, 3, name);
    write_chain(store, stored, height, out, 35)
}

// Writes the slip of a logged block, or says why not.
#[unsafe(no_mangle)]
pub extern "C" fn slip_write(store: &[u8], name: &[u8], out: &mut [u8]) -> u64
    ensures { Gives (write_called store.now name.now out.old) result store.now out.new }
{
    if !store::is_whole(store) {
        return Refusal::Lengths.answer();
    }
    if name.len() != 32 {
        return Refusal::Lengths.answer();
    }
    if out.len() < store::least_out_in(store) {
        return Refusal::Lengths.answer();
    }
    if !formed::well_formed(store) {
        return Refusal::Malformed.answer();
    }
    let station = Station::load(store);
    let wanted = fields::get_name(name, 0);
    let Some(i) = find_name(store, station.logged, wanted) else {
        return Refusal::Slip.answer();
    };
    write_slip(store, station.statements, i + 1, wanted, out) as u64
}
