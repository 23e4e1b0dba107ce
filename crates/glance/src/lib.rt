// What is seen of the statements before a tick: how many of its view were voted for, and from where on something due may be new to the log.
// The store is only read; a caller shows that it has the form.
#![tactic(auto)]

ghost use Rattle.std.specs.Prelude.{◌≡◌, length, get_or, ◌+◌, ◌-◌, ◌<◌, ◌≤◌, eqb, true};
ghost use Rattle.rules.specs.Limits.{most_statements, most_statements_large};
ghost use Rattle.rules.specs.WellFormed.{well_formed};
ghost use Rattle.store.specs.Layout.{size_in, statement_table, store_length, count_of};
ghost use Rattle.store.specs.Decode.{statement_at, state_of, Form};
ghost use Rattle.store.specs.Meaning.{Loads};
ghost use Rattle.linked.specs.Told.{Told};
ghost use Rattle.tallies.specs.Values.{told, vote_number};
ghost use Rattle.glance.specs.Votes.{vote_in};
ghost use Rattle.glance.specs.Looks.{Tells, Begun, IsView, turned, Views, OthersFrom, FourOthers, Looked, Seen};

use settings::Settings;
use store::{STATEMENT_SIZE, STATEMENTS, Station, VIEW};

// How many proposes of the view were voted for, and a place: the check told of each due statement below it.
#[derive(Clone, Copy)]
pub struct Glance {
    pub votes: usize,
    pub settled: usize,
}

// The place that stands in a table.
pub fn place_in(table: &[u16], k: usize) -> usize
    requires { k < length table.now }
    ensures { result ≡ get_or table.now k 0 }
{
    table[k] as usize
}

// Whether the check told that statement i is the first propose of the logged name at its height, above the name below.
pub fn is_told(store: &[u8], told: &[u16], i: usize) -> bool
    requires { (length store.now ≡ store_length (size_in store.now)) × (i < most_statements (size_in store.now)) × (length told.now ≡ most_statements_large) }
    ensures { Tells told.now ((statement_at store.now i).height - 1) i result }
{
    let height = store::height_at(store, i) as usize;
    if height == 0 {
        return false;
    }
    if Settings::MOST_STATEMENTS_LARGE < height {
        return false;
    }
    place_in(told, height - 1) == i + 1
}

// The clock of the own vote for statement i, if it is a propose of the view that was voted for.
pub fn vote_in(store: &[u8], i: usize, view: u32) -> Option<u32>
    requires { (length store.now ≡ store_length (size_in store.now)) × (i < most_statements (size_in store.now)) }
    ensures { vote_number (told result) ≡ vote_in view (statement_at store.now i) }
{
    if search::view_at(store, i) != view {
        return None;
    }
    if store::kind_at(store, i) == 1 {
        return None;
    }
    store::voted_at(store, i)
}

// A view's lower half with its bytes turned: what its two bytes in a store come to where the first counts least.
fn turned(view: u32) -> u64
    ensures { result ≡ turned view }
{
    let high = view / 256 % 256;
    let low = view % 256;
    u64::from(high + 256 * low)
}

// Whether statement i is of a view: none is above 65,535, so the lower half tells. It is read with its bytes turned, as the
// processor loads them, and the view is turned once.
fn is_of_view(store: &[u8], i: usize, view: u32) -> bool
    requires { (length store.now ≡ store_length (size_in store.now)) × (i < most_statements (size_in store.now)) × IsView (statement_at store.now i).view × IsView view }
    ensures { result ≡ eqb (statement_at store.now i).view view }
{
    let low = STATEMENTS + STATEMENT_SIZE * i + VIEW + 2;
    let first = fields::get(store, low, 1);
    let second = fields::get(store, low + 1, 1);
    first + 256 * second == turned(view)
}

// Whether the four statements from place i on are of other views.
fn are_others(store: &[u8], i: usize, view: u32) -> bool
    requires { (Views store.now view) × (i + 4 ≤ count_of statement_table store.now) }
    ensures { FourOthers store.now view i result }
{
    if is_of_view(store, i + 3, view) {
        return false;
    }
    if is_of_view(store, i + 2, view) {
        return false;
    }
    if is_of_view(store, i + 1, view) {
        return false;
    }
    !is_of_view(store, i, view)
}

// Passes over statements of other views from a place down, four at a time: how many are left.
fn pass(store: &[u8], from: usize, view: u32) -> usize
    requires { (Views store.now view) × (from ≤ count_of statement_table store.now) }
    ensures { (result ≤ from) × OthersFrom store.now view result from }
{
    let mut i = from;
    // Down by four, and the test of the four belongs to the turn: no range has it.
    while 4 <= i && are_others(store, i - 4, view) {
        i -= 4;
    }
    i
}

// What is seen of all statements, from the last place down, field by field. How far down a step goes is not known before, so no range
// would do.
fn look_down(store: &[u8], told: &[u16], count: usize, view: u32, wait: u64, clock: u64) -> Glance
    requires { (Begun store.now told.now count wait) × (Views store.now view) }
    ensures { Looked store.now told.now view wait clock count result.votes result.settled }
{
    let mut i = count;
    let mut votes: usize = 0;
    let mut settled = count;
    while 0 < i {
        i -= 1;
        if !is_of_view(store, i, view) {
            i = pass(store, i, view);
            continue;
        }
        if is_told(store, told, i) {
            let Some(_) = store::voted_at(store, i) else {
                continue;
            };
            votes += 1;
            continue;
        }
        if store::kind_at(store, i) == 1 {
            continue;
        }
        let Some(vote) = store::voted_at(store, i) else {
            continue;
        };
        votes += 1;
        if clock <= u64::from(vote) + wait {
            continue;
        }
        settled = i;
    }
    Glance { votes, settled }
}

// What is seen of the statements before a tick to the next clock.
pub fn look(store: &[u8], station: Station, told: &[u16]) -> Glance
    requires { (Form store.now) × (well_formed (state_of store.now) ≡ true) × (Loads station store.now) × (Told store.now told.now) }
    ensures { Seen store.now told.now station result }
{
    let settings = station.settings;
    look_down(
        store,
        told,
        station.statements,
        station.view,
        2 * settings.delay,
        u64::from(station.clock) + 1,
    )
}
