// The clauses of 'allowed', each a test for any numbers and any settings. Tests are joined by `&`, so that none has a branch for another.
#![tactic(auto)]

ghost use Rattle.std.specs.Prelude.{◌≡◌, ◌^◌, eqb, ltb};
ghost use Rattle.fields.specs.Names.{name_of};
ghost use Rattle.rules.specs.Messages.{view_allowed, block_allowed, mask_allowed, certificate_allowed};
ghost use Rattle.rules.specs.Sizes.{leader};
ghost use Rattle.settings.specs.Made.{settings_of};

use fields::Name;
use settings::Settings;

// A view within the limits.
pub fn view_allowed(settings: Settings, view: u64) -> bool
    ensures { result ≡ view_allowed (settings_of settings) view }
{
    (Settings::FIRST_VIEW <= view) & (view <= settings.last_view())
}

// A height within the limits, 0 exactly when the name is all zero.
pub fn block_allowed(height: u64, name: Name) -> bool
    ensures { result ≡ block_allowed height (name_of name) }
{
    let zero = name.is_zero();
    (height <= Settings::LAST_HEIGHT) & ((height == 0) == zero)
}

// No mask bit at n or above. A mask is 16 bits, so with more stations none is.
pub fn mask_within(settings: Settings, mask: u16) -> bool
    ensures { result ≡ ltb mask (2 ^ settings.n) }
{
    if 16 <= settings.n {
        return true;
    }
    (mask as u64) < settings::only(settings.n)
}

// No mask bit at n or above, and a quorum.
pub fn mask_allowed(settings: Settings, mask: u16) -> bool
    ensures { result ≡ mask_allowed (settings_of settings) mask }
{
    mask_within(settings, mask) & settings.quorum(mask as u64)
}

// Certificate view 0 with height 0 and mask 0 only; else a view within the limits, and a quorum.
pub fn certificate_allowed(settings: Settings, height: u64, cert: u64, mask: u16) -> bool
    ensures { result ≡ certificate_allowed (settings_of settings) height cert mask }
{
    if cert == 0 {
        return (height == 0) & (mask == 0);
    }
    (cert <= settings.last_view()) & mask_allowed(settings, mask)
}

// Whether the author is the leader of the view. Without stations a view is its own remainder.
pub fn leads(settings: Settings, view: u64, author: u64) -> bool
    ensures { result ≡ eqb author (leader (settings_of settings) view) }
{
    if settings.n == 0 {
        return author == view;
    }
    author == settings.leader(view)
}

// Whether a new-view's link, its certificate view, is below its view.
pub fn link_below(link: Name, view: u64) -> bool
    ensures { result ≡ ltb (name_of link) view }
{
    let end = Name {
        first: 0,
        second: 0,
        third: 0,
        fourth: view,
    };
    link < end
}
