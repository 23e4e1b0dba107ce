// The checker of slips: a block name and the proposes from that block down to height 1. It knows messages and settings, and nothing of a store.
#![tactic(auto)]

ghost use Rattle.std.specs.Prelude.{◌≡◌, ◌≤◌, length};
ghost use Rattle.settings.specs.Made.{settings_of};
ghost use Rattle.slip.specs.Slips.{name_end, top_height, judged, checked};
ghost use Rattle.slip.specs.Meaning.{verdict_of};

use answer::Refusal;
use settings::Settings;

// The bytes of the name's field.
const NAME: usize = 35;

// Why some bytes are no slip: the first bad place.
#[derive(Clone, Copy, Debug, PartialEq, Eq)]
pub struct Refused {
    pub place: u64,
}

// The height that the top says.
fn top_height(slip: &[u8]) -> u32
    requires { name_end ≤ length slip.now }
    ensures { result ≡ top_height slip.now }
{
    match slip_entries::entry_at(slip, NAME) {
        Some(x) => x.height,
        None => 1,
    }
}

// Whether some bytes are a slip: the number of its entries, or the first bad place.
pub fn judge(settings: Settings, slip: &[u8]) -> Result<u64, Refused>
    ensures { verdict_of result ≡ judged (settings_of settings) slip.now }
{
    if slip.len() < NAME {
        return Err(Refused { place: 0 });
    }
    if fields::get(slip, 0, 3) != 0x40_0020 {
        return Err(Refused { place: 0 });
    }
    let mut name = fields::get_name(slip, 3);
    let mut at: usize = NAME;
    let mut place: u64 = 0;
    for below in (0..top_height(slip)).rev() {
        let Some(parent) = slip_entries::parent_at(settings, slip, at, below + 1, name) else {
            return Err(Refused { place });
        };
        name = parent;
        at += slip_entries::ENTRY;
        place += 1;
    }
    if at == slip.len() {
        return Ok(place);
    }
    Err(Refused { place })
}

// Checks a slip in a group of a kind with n stations: the number of its entries, or 15 and the first bad place.
#[unsafe(no_mangle)]
pub extern "C" fn slip_check(kind: u64, n: u64, slip: &[u8]) -> u64
    ensures { result ≡ checked kind n slip.now }
{
    let Some(settings) = groups::group_of(kind, n) else {
        return Refusal::BadSettings.answer();
    };
    match judge(settings, slip) {
        Ok(entries) => entries,
        Err(refused) => Refusal::Slip.answer() + refused.place,
    }
}
