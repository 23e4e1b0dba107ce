// The voters of a mask.
#![tactic(auto)]

ghost use Rattle.std.specs.Prelude.{◌≡◌};
ghost use Rattle.rules.specs.Sizes.{count};

// How many masks there are: one bit for each station, and no more.
const MASKS: u64 = 65_536;

// How many voters a mask has. What lies above a mask's bits is cut off first, so that the compiler counts sixteen bits and not sixty-four.
pub fn count(mask: u64) -> u64
    ensures { result ≡ count mask }
{
    let bits = (mask % MASKS) as u32;
    u64::from(bits.count_ones())
}
