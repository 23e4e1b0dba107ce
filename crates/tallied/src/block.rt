// The block that a record begins with, tested where it lies.
ghost use Rattle.std.specs.Prelude.{◌≡◌, ◌&&◌, ◌+◌, ◌≤◌, length, leb, eqb};
ghost use Rattle.rules.specs.Limits.{last_height};
ghost use Rattle.rules.specs.Lists.{iff};
ghost use Rattle.rules.specs.Messages.{block_allowed};
ghost use Rattle.fields.specs.Places.{number};

use settings::Settings;

// Whether the height of a block is allowed, where it is known whether the name is all zero.
pub fn height_good(height: u64, zero: bool) -> bool
    ensures { result ≡ (leb height last_height && iff (eqb height 0) zero) }
{
    if zero {
        return height == 0;
    }
    (1 <= height) & (height <= Settings::LAST_HEIGHT)
}

// Whether a height goes with the name at a place. Few names begin with eight zeros, so mostly no more of it is looked at.
pub fn block_good(store: &[u8], at: usize, height: u64) -> bool
    requires { at + 32 ≤ length store.now }
    ensures { result ≡ block_allowed height (number store.now at 32) }
{
    if fields::get(store, at, 8) != 0 {
        return height_good(height, false);
    }
    let zero = fields::all_zero(store, at, 32);
    height_good(height, zero)
}
