// The settings of a station: the limits of 01, which code reads here and nowhere else, and what follows from n and the own number.
#![tactic(auto)]

ghost use Rattle.std.specs.Prelude.{◌≡◌, ◌<◌, ◌^◌};
ghost use Rattle.rules.specs.Limits.{mask_bits, last_view, most_statements, most_tallies};
ghost use Rattle.rules.specs.Sizes.{leader, quorum, only, joined, holds};
ghost use Rattle.settings.specs.Made.{made, answer_of, answered, size_from, settings_of};

// Which limits a group goes by.
#[derive(Clone, Copy)]
pub enum Size {
    Small,
    Large,
}

#[derive(Clone, Copy)]
pub struct Settings {
    pub n: u64,
    pub delay: u64,
    pub own: u64,
    pub size: Size,
}

impl Settings {
    pub const LEAST_STATIONS: u64 = 3;

    pub const MOST_STATIONS: u64 = 15;

    pub const LEAST_DELAY: u64 = 1;

    pub const MOST_DELAY: u64 = 10_000;

    pub const FIRST_VIEW: u64 = 1;

    pub const LAST_VIEW: u64 = 32;

    pub const LAST_VIEW_LARGE: u64 = 256;

    pub const LAST_HEIGHT: u64 = 65_535;

    pub const MOST_STATEMENTS: usize = 128;

    pub const MOST_STATEMENTS_LARGE: usize = 512;

    pub const MOST_TALLIES: usize = 512;

    pub const MOST_TALLIES_LARGE: usize = 1_024;

    pub const MOST_OPENED: u16 = 16;

    pub const LAST_CLOCK: u64 = 4_000_000_000;

    pub const LEAST_OUT: usize = 32_768;

    pub const LEAST_OUT_LARGE: usize = 131_072;

    // The settings, or that they are bad.
    pub fn new(n: u64, delay: u64, own: u64, size: Size) -> Option<Settings>
        ensures { (result ≡ made n delay own size) × (answer_of result ≡ answered n delay own size) }
    {
        if n % 2 != 1 {
            return None;
        }
        if n < Settings::LEAST_STATIONS {
            return None;
        }
        if Settings::MOST_STATIONS < n {
            return None;
        }
        if delay < Settings::LEAST_DELAY {
            return None;
        }
        if Settings::MOST_DELAY < delay {
            return None;
        }
        if n <= own {
            return None;
        }
        Some(Settings {
            n,
            delay,
            own,
            size,
        })
    }

    // The last view of the group.
    pub fn last_view(self) -> u64
        ensures { result ≡ last_view (settings_of self).size }
    {
        let size = self.size;
        size.last_view()
    }

    // The leader of a view.
    pub fn leader(self, view: u64) -> u64
        requires { 0 < self.n }
        ensures { result ≡ leader (settings_of self) view }
    {
        view % self.n
    }

    // Whether a mask has f+1 voters.
    pub fn quorum(self, mask: u64) -> bool
        requires { mask < 2 ^ mask_bits }
        ensures { result ≡ quorum (settings_of self) mask }
    {
        self.n / 2 < counting::count(mask)
    }
}

impl Size {
    // The last view.
    pub fn last_view(self) -> u64
        ensures { result ≡ last_view (size_from self) }
    {
        match self {
            Size::Small => Settings::LAST_VIEW,
            Size::Large => Settings::LAST_VIEW_LARGE,
        }
    }

    // How many statements are stored at most.
    pub fn most_statements(self) -> usize
        ensures { result ≡ most_statements (size_from self) }
    {
        match self {
            Size::Small => Settings::MOST_STATEMENTS,
            Size::Large => Settings::MOST_STATEMENTS_LARGE,
        }
    }

    // How many tallies are stored at most.
    pub fn most_tallies(self) -> usize
        ensures { result ≡ most_tallies (size_from self) }
    {
        match self {
            Size::Small => Settings::MOST_TALLIES,
            Size::Large => Settings::MOST_TALLIES_LARGE,
        }
    }
}

// The mask of one station.
pub fn only(station: u64) -> u64
    requires { station < mask_bits }
    ensures { result ≡ only station }
{
    1 << station
}

// Two masks joined: nobody is lost, nobody is counted twice.
pub fn joined(mask: u16, other: u16) -> u16
    ensures { result ≡ joined mask other }
{
    mask | other
}

// Whether a mask has a station's bit.
pub fn holds(mask: u64, station: u64) -> bool
    requires { station < mask_bits }
    ensures { result ≡ holds mask station }
{
    (mask >> station) % 2 == 1
}
