// A station held by value, for the plain engine: its tables, its log and the rest of its state.
#![tactic(auto)]

ghost use Rattle.std.specs.Prelude.{◌≡◌, true, []};
ghost use Rattle.rules.specs.Sizes.{good_settings};
ghost use Rattle.rules.specs.Words as words;
ghost use Rattle.settings.specs.Made.{settings_of};
ghost use Rattle.settings.specs.declared.Size.TheVariants.{Small};
ghost use Rattle.plain_tables.specs.Meaning.{Holds, Gives, phased, tabled, blaming};

use fields::Name;
use plain_statements::Statements;
use plain_tallies::Tallies;
use plain_words::Certificate;
use settings::Settings;

// The room of a log, and of the blame masks: one a view, from view 0.
pub const NAMES: usize = Settings::MOST_STATEMENTS + 1;

pub const VIEWS: usize = Settings::LAST_VIEW as usize + 1;

// Names by ascending height, from height 1: a log or a chain.
#[derive(Clone, Copy)]
pub struct Names {
    pub items: [Name; NAMES],
    pub count: usize,
}

#[derive(Clone, Copy)]
pub enum Cause {
    Full,
    Split,
    Clock,
}

#[derive(Clone, Copy)]
pub enum Phase {
    InView,
    Waiting(u32),
    Stopped(Cause),
}

// A station.
#[derive(Clone, Copy)]
pub struct Engine {
    pub settings: Settings,
    pub phase: Phase,
    pub view: u32,
    pub entry: u32,
    pub clock: u32,
    pub lock: Certificate,
    pub statements: Statements,
    pub tallies: Tallies,
    pub blames: [u16; VIEWS],
    pub log: Names,
}

impl Names {
    // No names.
    pub fn none() -> Names
        ensures { Holds result [] }
    {
        Names {
            items: [Name::zero(); NAMES],
            count: 0,
        }
    }
}

impl Engine {
    // "It starts in view 1, clock 0, lock on genesis".
    pub fn fresh(settings: Settings) -> Engine
        requires { (settings.size ≡ Small) × (good_settings (settings_of settings) ≡ true) }
        ensures { Gives result (words.fresh (settings_of settings)) }
    {
        Engine {
            settings,
            phase: Phase::InView,
            view: Settings::FIRST_VIEW as u32,
            entry: 0,
            clock: 0,
            lock: plain_words::genesis(),
            statements: Statements::none(),
            tallies: Tallies::none(),
            blames: [0; VIEWS],
            log: Names::none(),
        }
    }

    // The station with another phase.
    pub fn with_phase(mut self, phase: Phase) -> Engine
        ensures { result ≡ phased phase self }
    {
        self.phase = phase;
        self
    }

    // The station with other tables.
    pub fn with_tables(mut self, statements: Statements, tallies: Tallies) -> Engine
        ensures { result ≡ tabled statements tallies self }
    {
        self.statements = statements;
        self.tallies = tallies;
        self
    }

    // The station with other blame masks.
    pub fn with_blames(mut self, blames: [u16; VIEWS]) -> Engine
        ensures { result ≡ blaming blames self }
    {
        self.blames = blames;
        self
    }
}
