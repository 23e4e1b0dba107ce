// The lent store: one byte slice whose exact length tells its limits, the bytes of a well-formed state in one way only.
#![tactic(auto)]

ghost use Rattle.std.specs.Prelude.{◌≡◌, ◌+◌, ◌-◌, ◌*◌, ◌^◌, ◌≤◌, ◌<◌, length, eqb};
ghost use Rattle.std.proofs.Math.Option.{none};
ghost use Rattle.rules.specs.Limits.{last_view, most_statements, most_tallies, least_out};
ghost use Rattle.rules.specs.Words.{same_statement, of_block};
ghost use Rattle.fields.specs.Names.{name_of};
ghost use Rattle.fields.specs.Places.{number};
ghost use Rattle.fields.specs.Records.{fields};
ghost use Rattle.settings.specs.Made.{size_from};
ghost use Rattle.wire.specs.Meaning.{statement_of};
ghost use Rattle.words.specs.Meaning.{block_of};
ghost use Rattle.store.specs.Layout.{certificate_format, header_size, certificate_size, tally_size, tally_table, log_table, blame_base, store_length, size_in, place_of};
ghost use Rattle.store.specs.Decode.{phase_of, certificate_from, statement_at, tally_at, opener_at, since_at, blame_at, name_at, kind_at, vote_at, rows, statements, tallies, Form};
ghost use Rattle.store.specs.Meaning.{course_of, Loads};
ghost use Rattle.tallies.specs.Values.{told, vote_of, opener_of, reached_from};
ghost use Rattle.tallies.specs.Meaning.{tally_of};
ghost use Rattle.store.specs.Searches.{first_from, block_at};

use fields::Name;
use settings::{Settings, Size};
use tallies::Tally;
use wire::Statement;
use words::Certificate;

// The exact length of a store, with the small limits and with the large ones.
pub const LENGTH: usize = LOG + NAME_SIZE * Settings::MOST_STATEMENTS;

pub const LENGTH_LARGE: usize = LOG_LARGE + NAME_SIZE * Settings::MOST_STATEMENTS_LARGE;

// Where the header's numbers are; the lock is a certificate.
pub const PHASE: usize = 0;

pub const N: usize = 4;

pub const DELAY: usize = 5;

pub const OWN: usize = 7;

pub const CURRENT: usize = 8;

pub const ENTRY: usize = 12;

pub const CLOCK: usize = 16;

pub const LOCK: usize = 20;

pub const STATEMENT_COUNT: usize = 62;

pub const TALLY_COUNT: usize = 64;

pub const LOG_COUNT: usize = 66;

// Where each table begins, and the size of its records.
pub const STATEMENTS: usize = LOG_COUNT + 2;

pub const STATEMENT_SIZE: usize = VOTE + 4;

const TALLIES: usize = STATEMENTS + STATEMENT_SIZE * Settings::MOST_STATEMENTS;

const TALLIES_LARGE: usize = STATEMENTS + STATEMENT_SIZE * Settings::MOST_STATEMENTS_LARGE;

pub const TALLY_SIZE: usize = REACHED + 4;

const BLAMES: usize = TALLIES + TALLY_SIZE * Settings::MOST_TALLIES;

const BLAMES_LARGE: usize = TALLIES_LARGE + TALLY_SIZE * Settings::MOST_TALLIES_LARGE;

const BLAME_SIZE: usize = 2;

const LOG: usize = BLAMES + BLAME_SIZE * (Settings::LAST_VIEW as usize);

const LOG_LARGE: usize = BLAMES_LARGE + BLAME_SIZE * (Settings::LAST_VIEW_LARGE as usize);

pub const NAME_SIZE: usize = 32;

// Where the numbers of a record are: of a block, a tally's last, a statement's last.
pub const VIEW: usize = 0;

pub const HEIGHT: usize = 4;

pub const NAME: usize = 8;

pub const VOTERS: usize = 40;

pub const OPENER: usize = 42;

pub const REACHED: usize = 43;

pub const KIND: usize = 40;

pub const AUTHOR: usize = 41;

pub const MASK: usize = 42;

pub const LINK: usize = 44;

pub const VOTE: usize = 76;

// Why a station stopped.
#[derive(Clone, Copy)]
pub enum Cause {
    Full,
    Split,
    Clock,
}

// In a view, waiting after a quit, or stopped with a cause.
#[derive(Clone, Copy)]
pub enum Phase {
    InView,
    Waiting(u32),
    Stopped(Cause),
}

// What stands in the store's header: all of a station but its tables.
#[derive(Clone, Copy)]
pub struct Station {
    pub settings: Settings,
    pub phase: Phase,
    pub view: u32,
    pub entry: u32,
    pub clock: u32,
    pub lock: Certificate,
    pub statements: usize,
    pub tallies: usize,
    pub logged: usize,
}

// The limits that a store is made for: its length says which.
pub fn size_in(store: &[u8]) -> Size
    ensures { size_from result ≡ size_in store.now }
{
    if store.len() == LENGTH_LARGE {
        return Size::Large;
    }
    Size::Small
}

// Whether a store is of its exact length.
pub fn is_whole(store: &[u8]) -> bool
    ensures { result ≡ eqb (length store.now) (store_length (size_in store.now)) }
{
    if store.len() == LENGTH_LARGE {
        return true;
    }
    store.len() == LENGTH
}

// The last view, how many statements and tallies are stored at most, and how long the out buffer is at least, by a store's limits.
pub fn last_view_in(store: &[u8]) -> u64
    ensures { result ≡ last_view (size_in store.now) }
{
    if store.len() == LENGTH_LARGE {
        return Settings::LAST_VIEW_LARGE;
    }
    Settings::LAST_VIEW
}

pub fn most_statements_in(store: &[u8]) -> usize
    ensures { result ≡ most_statements (size_in store.now) }
{
    if store.len() == LENGTH_LARGE {
        return Settings::MOST_STATEMENTS_LARGE;
    }
    Settings::MOST_STATEMENTS
}

pub fn most_tallies_in(store: &[u8]) -> usize
    ensures { result ≡ most_tallies (size_in store.now) }
{
    if store.len() == LENGTH_LARGE {
        return Settings::MOST_TALLIES_LARGE;
    }
    Settings::MOST_TALLIES
}

pub fn least_out_in(store: &[u8]) -> usize
    ensures { result ≡ least_out (size_in store.now) }
{
    if store.len() == LENGTH_LARGE {
        return Settings::LEAST_OUT_LARGE;
    }
    Settings::LEAST_OUT
}

// The place of tally i, of the blame mask of view i + 1, of the name logged at height i + 1.
pub fn tally_place(store: &[u8], i: usize) -> usize
    requires { (length store.now ≡ store_length (size_in store.now)) × (i < most_tallies (size_in store.now)) }
    ensures { (result ≡ place_of tally_table (size_in store.now) i) × (result + tally_size ≤ length store.now) }
{
    tallies_in(store) + TALLY_SIZE * i
}

pub fn blame_place(store: &[u8], i: usize) -> usize
    requires { (length store.now ≡ store_length (size_in store.now)) × (i < last_view (size_in store.now)) }
    ensures { (result ≡ blame_base (size_in store.now) + 2 * i) × (result + 2 ≤ length store.now) }
{
    blames_in(store) + BLAME_SIZE * i
}

pub fn name_place(store: &[u8], i: usize) -> usize
    requires { (length store.now ≡ store_length (size_in store.now)) × (i < most_statements (size_in store.now)) }
    ensures { (result ≡ place_of log_table (size_in store.now) i) × (result + 32 ≤ length store.now) }
{
    log_in(store) + NAME_SIZE * i
}

// Where the tallies, the blame masks and the log begin.
pub fn tallies_in(store: &[u8]) -> usize
    ensures { result ≡ tally_table.base (size_in store.now) }
{
    if store.len() == LENGTH_LARGE {
        return TALLIES_LARGE;
    }
    TALLIES
}

pub fn blames_in(store: &[u8]) -> usize
    ensures { result ≡ blame_base (size_in store.now) }
{
    if store.len() == LENGTH_LARGE {
        return BLAMES_LARGE;
    }
    BLAMES
}

pub fn log_in(store: &[u8]) -> usize
    ensures { result ≡ log_table.base (size_in store.now) }
{
    if store.len() == LENGTH_LARGE {
        return LOG_LARGE;
    }
    LOG
}

// The number of four bytes.
fn get_four(store: &[u8], at: usize) -> u32
    requires { at + 4 ≤ length store.now }
    ensures { result ≡ number store.now at 4 }
{
    fields::get(store, at, 4) as u32
}

// The number of two bytes.
fn get_two(store: &[u8], at: usize) -> u16
    requires { at + 2 ≤ length store.now }
    ensures { result ≡ number store.now at 2 }
{
    fields::get(store, at, 2) as u16
}

// How many records a table has in use.
pub fn get_count(store: &[u8], at: usize) -> usize
    requires { at + 2 ≤ length store.now }
    ensures { (result ≡ number store.now at 2) × (result < 256 ^ 2) }
{
    fields::get(store, at, 2) as usize
}

// The phase of a number: 0 in a view; 1, 2, 3 stopped; from 4 on waiting, with the quit clock.
fn phase_of(number: u32) -> Phase
    ensures { course_of result ≡ phase_of number }
{
    match number {
        0 => Phase::InView,
        1 => Phase::Stopped(Cause::Full),
        2 => Phase::Stopped(Cause::Split),
        3 => Phase::Stopped(Cause::Clock),
        _ => Phase::Waiting(number - 4),
    }
}

// The certificate whose numbers begin at a place.
fn get_certificate(store: &[u8], at: usize) -> Certificate
    requires { at + certificate_size ≤ length store.now }
    ensures { block_of result ≡ certificate_from (fields store.now at certificate_format) }
{
    let view = get_four(store, at + VIEW);
    let height = get_four(store, at + HEIGHT);
    let name = fields::get_name(store, at + NAME);
    let mask = get_two(store, at + VOTERS);
    Certificate {
        view,
        height,
        name,
        mask,
    }
}

// Tally i.
pub fn tally_at(store: &[u8], i: usize) -> Tally
    requires { (length store.now ≡ store_length (size_in store.now)) × (i < most_tallies (size_in store.now)) }
    ensures { tally_of result ≡ tally_at store.now i }
{
    let block = get_certificate(store, tally_place(store, i));
    let opener = opener_at(store, i);
    let reached = reached_at(store, i);
    Tally {
        block,
        opener,
        reached,
    }
}

// The author of the vote that opened tally i, if one did: its number is one more.
pub fn opener_at(store: &[u8], i: usize) -> Option<u8>
    requires { (length store.now ≡ store_length (size_in store.now)) × (i < most_tallies (size_in store.now)) }
    ensures { told result ≡ opener_of (opener_at store.now i) }
{
    let number = fields::get(store, tally_place(store, i) + OPENER, 1) as u8;
    number.checked_sub(1)
}

// The clock at which tally i first had a quorum, if it had one: its number is one more.
pub fn reached_at(store: &[u8], i: usize) -> Option<u32>
    requires { (length store.now ≡ store_length (size_in store.now)) × (i < most_tallies (size_in store.now)) }
    ensures { told result ≡ reached_from (since_at store.now i) }
{
    get_four(store, tally_place(store, i) + REACHED).checked_sub(1)
}

// The kind of statement i, as on the wire: 1 new-view, 2 propose.
pub fn kind_at(store: &[u8], i: usize) -> u8
    requires { (length store.now ≡ store_length (size_in store.now)) × (i < most_statements (size_in store.now)) }
    ensures { result ≡ kind_at store.now i }
{
    fields::get(store, STATEMENTS + STATEMENT_SIZE * i + KIND, 1) as u8
}

// Statement i; whatever is no new-view counts as a propose.
pub fn statement_at(store: &[u8], i: usize) -> Statement
    requires { (length store.now ≡ store_length (size_in store.now)) × (i < most_statements (size_in store.now)) }
    ensures { statement_of result (statement_at store.now i).voted ≡ statement_at store.now i }
{
    let at = STATEMENTS + STATEMENT_SIZE * i;
    let kind = fields::get(store, at + KIND, 1);
    let view = get_four(store, at + VIEW);
    let height = get_four(store, at + HEIGHT);
    let name = fields::get_name(store, at + NAME);
    let link = fields::get_name(store, at + LINK);
    let mask = get_two(store, at + MASK);
    let author = fields::get(store, at + AUTHOR, 1) as u8;
    Statement {
        is_new_view: kind == 1,
        view,
        height,
        name,
        link,
        mask,
        author,
    }
}

// The height of statement i.
pub fn height_at(store: &[u8], i: usize) -> u32
    requires { (length store.now ≡ store_length (size_in store.now)) × (i < most_statements (size_in store.now)) }
    ensures { result ≡ (statement_at store.now i).height }
{
    get_four(store, STATEMENTS + STATEMENT_SIZE * i + HEIGHT)
}

// The clock of the own vote for statement i, if there is one: its number is one more.
pub fn voted_at(store: &[u8], i: usize) -> Option<u32>
    requires { (length store.now ≡ store_length (size_in store.now)) × (i < most_statements (size_in store.now)) }
    ensures { told result ≡ vote_of (vote_at store.now i) }
{
    get_four(store, STATEMENTS + STATEMENT_SIZE * i + VOTE).checked_sub(1)
}

// The blame mask of view i + 1.
pub fn blame_at(store: &[u8], i: usize) -> u16
    requires { (length store.now ≡ store_length (size_in store.now)) × (i < last_view (size_in store.now)) }
    ensures { result ≡ blame_at store.now i }
{
    get_two(store, blame_place(store, i))
}

// The name logged at height i + 1.
pub fn name_at(store: &[u8], i: usize) -> Name
    requires { (length store.now ≡ store_length (size_in store.now)) × (i < most_statements (size_in store.now)) }
    ensures { name_of result ≡ name_at store.now i }
{
    fields::get_name(store, name_place(store, i))
}

// A block's view and height as one number of eight bytes.
fn key_of(view: u32, height: u32) -> u64
    ensures { result ≡ view * 256 ^ 4 + height }
{
    (view as u64) * 4_294_967_296 + height as u64
}

// The place of the first tally of this block, from one place up to another.
pub fn seek_tally(store: &[u8], from: usize, end: usize, block: Certificate) -> Option<usize>
    requires { (length store.now ≡ store_length (size_in store.now)) × (end ≤ most_tallies (size_in store.now)) }
    ensures { result ≡ first_from (of_block (block_of block)) from (rows (tally_at store.now) from (end - from)) }
{
    let base = tallies_in(store);
    let key = key_of(block.view, block.height);
    let i = lookup::first(store, base, TALLY_SIZE, from, end, key, block.name);
    if end <= i {
        return None;
    }
    Some(i)
}

// The place of the first tally of this block.
pub fn find_tally(store: &[u8], block: Certificate) -> Option<usize>
    requires { Form store.now }
    ensures { result ≡ block_at (block_of block) (tallies store.now) }
{
    let count = get_count(store, TALLY_COUNT);
    seek_tally(store, 0, count, block)
}

// Whether statement i is the same as this one, but for the mask.
pub fn is_statement(store: &[u8], i: usize, statement: Statement) -> bool
    requires { (length store.now ≡ store_length (size_in store.now)) × (i < most_statements (size_in store.now)) }
    ensures { result ≡ same_statement (statement_of statement none) (statement_at store.now i) }
{
    let key = key_of(statement.view, statement.height);
    if !lookup::is_block(store, STATEMENTS + STATEMENT_SIZE * i, key, statement.name) {
        return false;
    }
    let other = statement_at(store, i);
    let linked = statement.link == other.link;
    let written = (statement.author == other.author) & linked;
    (statement.is_new_view == other.is_new_view) & written
}

// The place of the first statement that is the same. Of one of another view or height no more than these is looked at.
pub fn find_statement(store: &[u8], statement: Statement) -> Option<usize>
    requires { Form store.now }
    ensures { result ≡ first_from (same_statement (statement_of statement none)) 0 (statements store.now) }
{
    let count = get_count(store, STATEMENT_COUNT);
    let key = key_of(statement.view, statement.height);
    let mut i: usize = 0;
    // No `for`: the form of a search is a loop that yields the place by break (docs/RULES.md).
    loop {
        if count <= i {
            break None;
        }
        if fields::get(store, STATEMENTS + STATEMENT_SIZE * i, 8) != key {
            i += 1;
            continue;
        }
        if is_statement(store, i, statement) {
            break Some(i);
        }
        i += 1;
    }
}

impl Station {
    // The station of the header's numbers.
    pub fn load(store: &[u8]) -> Station
        requires { header_size ≤ length store.now }
        ensures { Loads result store.now }
    {
        let size = size_in(store);
        let phase = phase_of(get_four(store, PHASE));
        let n = fields::get(store, N, 1);
        let delay = fields::get(store, DELAY, 2);
        let own = fields::get(store, OWN, 1);
        let view = get_four(store, CURRENT);
        let entry = get_four(store, ENTRY);
        let clock = get_four(store, CLOCK);
        let lock = get_certificate(store, LOCK);
        let statements = get_count(store, STATEMENT_COUNT);
        let tallies = get_count(store, TALLY_COUNT);
        let logged = get_count(store, LOG_COUNT);
        Station {
            settings: Settings {
                n,
                delay,
                own,
                size,
            },
            phase,
            view,
            entry,
            clock,
            lock,
            statements,
            tallies,
            logged,
        }
    }
}
