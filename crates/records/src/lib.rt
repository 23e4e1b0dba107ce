// What is written to the lent store but its tallies: statements, votes noted, blame masks, the log, and the header.
#![tactic(auto)]

ghost use Rattle.std.specs.Prelude.{◌≡◌, ◌+◌, ◌^◌, ◌≤◌, ◌<◌, length};
ghost use Rattle.std.proofs.Math.Option.{none};
ghost use Rattle.rules.specs.Limits.{last_view, most_statements, last_clock};
ghost use Rattle.rules.specs.Inputs.{with_phase, with_clock, entering, blamed};
ghost use Rattle.fields.specs.Names.{name_of};
ghost use Rattle.fields.specs.Places.{put as written};
ghost use Rattle.fields.specs.Records.{puts};
ghost use Rattle.wire.specs.Meaning.{statement_of};
ghost use Rattle.words.specs.Meaning.{block_of};
ghost use Rattle.store.specs.Layout.{header_format, statement_format, certificate_format, header_size, statement_size, certificate_size, statement_table, log_table, size_in, count_of};
ghost use Rattle.store.specs.Decode.{phase_number, kind_number, statement_values, certificate_values, state_of, Form, Left};
ghost use Rattle.store.specs.Meaning.{course_of, header_of};
ghost use Rattle.records.specs.Changes.{storing, noting, appending};

use fields::Name;
use settings::Settings;
use store::{Cause, Phase, Station};
use wire::Statement;
use words::Certificate;

// Writes a block's view, height and name to a record.
fn put_block(store: &mut [u8], at: usize, view: u32, height: u32, name: Name)
    requires { at + 40 ≤ length store.old }
    ensures { store.new ≡ written (written (written store.old (at + 0) 4 view) (at + 4) 4 height) (at + 8) 32 (name_of name) }
{
    fields::put(store, at + store::VIEW, 4, view as u64);
    fields::put(store, at + store::HEIGHT, 4, height as u64);
    fields::put_name(store, at + store::NAME, name);
}

// Writes a certificate's numbers.
pub fn put_certificate(store: &mut [u8], at: usize, certificate: Certificate)
    requires { at + certificate_size ≤ length store.old }
    ensures { store.new ≡ puts store.old at certificate_format (certificate_values (block_of certificate)) }
{
    put_block(
        store,
        at,
        certificate.view,
        certificate.height,
        certificate.name,
    );
    fields::put(store, at + store::VOTERS, 2, certificate.mask as u64);
}

// A kind's number, as on the wire.
fn kind_number(is_new_view: bool) -> u64
    ensures { result ≡ kind_number is_new_view }
{
    if is_new_view { 1 } else { 2 }
}

// Writes a statement's record, not voted for.
fn put_statement(store: &mut [u8], at: usize, statement: Statement)
    requires { at + statement_size ≤ length store.old }
    ensures { store.new ≡ puts store.old at statement_format (statement_values (statement_of statement none)) }
{
    let kind = kind_number(statement.is_new_view);
    put_block(store, at, statement.view, statement.height, statement.name);
    fields::put(store, at + store::KIND, 1, kind);
    fields::put(store, at + store::AUTHOR, 1, statement.author as u64);
    fields::put(store, at + store::MASK, 2, statement.mask as u64);
    fields::put_name(store, at + store::LINK, statement.link);
    fields::put(store, at + store::VOTE, 4, 0);
}

// A statement is stored behind the others.
pub fn append_statement(store: &mut [u8], statement: Statement)
    requires { (Form store.old) × (count_of statement_table store.old < most_statements (size_in store.old)) }
    ensures { Left store.new (storing (statement_of statement none) (state_of store.old)) }
{
    let count = store::get_count(store, store::STATEMENT_COUNT);
    put_statement(
        store,
        store::STATEMENTS + store::STATEMENT_SIZE * count,
        statement,
    );
    fields::put(store, store::STATEMENT_COUNT, 2, (count + 1) as u64);
}

// The own vote for statement i notes the clock.
pub fn note_vote(store: &mut [u8], i: usize, clock: u32)
    requires { (Form store.old) × (i < count_of statement_table store.old) × (clock ≤ last_clock) }
    ensures { Left store.new (noting i clock (state_of store.old)) }
{
    fields::put(
        store,
        store::STATEMENTS + store::STATEMENT_SIZE * i + store::VOTE,
        4,
        clock as u64 + 1,
    );
}

// A mask joins the blame mask of a view.
pub fn join_blame(store: &mut [u8], view: u32, mask: u16)
    requires { (Form store.old) × (1 ≤ view) × (view ≤ last_view (size_in store.old)) }
    ensures { Left store.new (blamed view mask (state_of store.old)) }
{
    let i = view as usize - 1;
    let joined = settings::joined(store::blame_at(store, i), mask);
    fields::put(store, store::blame_place(store, i), 2, joined as u64);
}

// A name is logged above the others.
pub fn append_name(store: &mut [u8], name: Name)
    requires { (Form store.old) × (count_of log_table store.old < most_statements (size_in store.old)) }
    ensures { Left store.new (appending (name_of name) (state_of store.old)) }
{
    let count = store::get_count(store, store::LOG_COUNT);
    fields::put_name(store, store::name_place(store, count), name);
    fields::put(store, store::LOG_COUNT, 2, (count + 1) as u64);
}

// The phase's number.
fn phase_number(phase: Phase) -> u64
    ensures { result ≡ phase_number (course_of phase) }
{
    match phase {
        Phase::InView => 0,
        Phase::Waiting(quit) => 4 + quit as u64,
        Phase::Stopped(cause) => match cause {
            Cause::Full => 1,
            Cause::Split => 2,
            Cause::Clock => 3,
        },
    }
}

// The phase is set.
pub fn set_phase(store: &mut [u8], phase: Phase)
    requires { (Form store.old) × (phase_number (course_of phase) < 256 ^ 4) }
    ensures { Left store.new (with_phase (course_of phase) (state_of store.old)) }
{
    fields::put(store, store::PHASE, 4, phase_number(phase));
}

// The clock is set.
pub fn set_clock(store: &mut [u8], clock: u32)
    requires { Form store.old }
    ensures { Left store.new (with_clock clock (state_of store.old)) }
{
    fields::put(store, store::CLOCK, 4, clock as u64);
}

// Writes the settings to the header.
fn put_settings(store: &mut [u8], settings: Settings)
    requires { header_size ≤ length store.old }
    ensures { store.new ≡ written (written (written store.old 4 1 settings.n) 5 2 settings.delay) 7 1 settings.own }
{
    fields::put(store, store::N, 1, settings.n);
    fields::put(store, store::DELAY, 2, settings.delay);
    fields::put(store, store::OWN, 1, settings.own);
}

// Writes the counts to the header.
fn put_counts(store: &mut [u8], statements: usize, tallies: usize, logged: usize)
    requires { header_size ≤ length store.old }
    ensures { store.new ≡ written (written (written store.old 62 2 statements) 64 2 tallies) 66 2 logged }
{
    fields::put(store, store::STATEMENT_COUNT, 2, statements as u64);
    fields::put(store, store::TALLY_COUNT, 2, tallies as u64);
    fields::put(store, store::LOG_COUNT, 2, logged as u64);
}

// Writes the header's numbers back.
pub fn save(station: Station, store: &mut [u8])
    requires { header_size ≤ length store.old }
    ensures { store.new ≡ puts store.old 0 header_format (header_of station) }
{
    let phase = station.phase;
    fields::put(store, store::PHASE, 4, phase_number(phase));
    put_settings(store, station.settings);
    fields::put(store, store::CURRENT, 4, station.view as u64);
    fields::put(store, store::ENTRY, 4, station.entry as u64);
    fields::put(store, store::CLOCK, 4, station.clock as u64);
    put_certificate(store, store::LOCK, station.lock);
    put_counts(store, station.statements, station.tallies, station.logged);
}

// A view is entered, with its lock.
pub fn enter(store: &mut [u8], view: u32, lock: Certificate)
    requires { Form store.old }
    ensures { Left store.new (entering view (block_of lock) (state_of store.old)) }
{
    let old = Station::load(store);
    let settings = old.settings;
    let station = Station {
        settings,
        phase: Phase::InView,
        view,
        entry: old.clock,
        clock: old.clock,
        lock,
        statements: old.statements,
        tallies: old.tallies,
        logged: old.logged,
    };
    save(station, store);
}
