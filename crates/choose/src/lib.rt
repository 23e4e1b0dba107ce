// Two reports, and the certificate part of the one with the higher rank: a part of one of two lent slices, no byte copied.
#![tactic(auto)]

ghost use Rattle.std.specs.Prelude.{◌≡◌};
ghost use Rattle.settings.specs.Made.{settings_of};
ghost use Rattle.choose.specs.Choose.{report, taken as taken_in, taken_of, chosen};
ghost use Rattle.choose.specs.Meaning.{number_of, Ranks};

use settings::Settings;
use wire::Message;

// The rank of a certificate: by view, then by height.
#[derive(Clone, Copy, PartialEq, Eq, PartialOrd, Ord)]
pub struct Rank {
    pub view: u32,
    pub height: u32,
}

// Whose part is taken.
#[derive(Clone, Copy)]
pub enum Choice {
    First,
    Second,
    Neither,
}

// The rank of the certificate that a message reports, if it is a report: any bytes, any settings.
fn rank_of(settings: Settings, message: &[u8]) -> Option<Rank>
    ensures { Ranks result (report (settings_of settings) message.now) }
{
    let said = reading::read_message(message)?;
    if !allowed::message_allowed(settings, said) {
        return None;
    }
    match said {
        Message::Status {
            height,
            name: _,
            cert,
            mask: _,
        } => Some(Rank { view: cert, height }),
        _ => None,
    }
}

// Whose part is taken: the one with the higher rank, the first of two with equal rank, the only one, or neither.
fn decide(settings: Settings, first: &[u8], second: &[u8]) -> Choice
    ensures { number_of result ≡ taken_in (report (settings_of settings) first.now) (report (settings_of settings) second.now) }
{
    match (rank_of(settings, first), rank_of(settings, second)) {
        (Some(own), Some(other)) => {
            if own < other {
                return Choice::Second;
            }
            Choice::First
        }
        (Some(_), None) => Choice::First,
        (None, Some(_)) => Choice::Second,
        (None, None) => Choice::Neither,
    }
}

// The same, of a kind of group and a number of stations; where one of them isn't good nothing is allowed.
fn taken(kind: u64, n: u64, first: &[u8], second: &[u8]) -> Choice
    ensures { number_of result ≡ taken_of kind n first.now second.now }
{
    let Some(settings) = groups::group_of(kind, n) else {
        return Choice::Neither;
    };
    decide(settings, first, second)
}

// The certificate part of the report that is taken, from the height field to the end; an empty part of the first if neither is.
pub fn choose<'a>(kind: u64, n: u64, first: &'a [u8], second: &'a [u8]) -> &'a [u8]
    ensures { (result.ref_ptr, result.now) ≡ chosen kind n (first.entry.ref_ptr, first.now) (second.entry.ref_ptr, second.now) }
{
    match taken(kind, n, first, second) {
        Choice::First => &first[4..],
        Choice::Second => &second[4..],
        Choice::Neither => &first[0..0],
    }
}

// Whose part is taken, for hosts: 1 the first's, 2 the second's, 0 the empty part.
#[unsafe(no_mangle)]
pub extern "C" fn status_choose(kind: u64, n: u64, first: &[u8], second: &[u8]) -> u64
    ensures { result ≡ taken_of kind n first.now second.now }
{
    match taken(kind, n, first, second) {
        Choice::First => 1,
        Choice::Second => 2,
        Choice::Neither => 0,
    }
}
