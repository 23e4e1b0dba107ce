// Tallies: a record of the table, what it certifies, and the same with whoever joins it.
#![tactic(auto)]

ghost use Rattle.std.specs.Prelude.{◌≡◌, ◌<◌};
ghost use Rattle.rules.specs.Limits.{mask_bits};
ghost use Rattle.rules.specs.Sizes.{only};
ghost use Rattle.rules.specs.Words.{reached_at, opened, grown};
ghost use Rattle.words.specs.Meaning.{block_of};
ghost use Rattle.tallies.specs.Values.{told};
ghost use Rattle.tallies.specs.Meaning.{tally_of, moment_of, voters_of, author_of, Numbered, with_voters};

use settings::Settings;
use words::Certificate;

// A record of the table of tallies: a block of a view with the mask of its voters, the author of the vote that opened it, if one did,
// and the clock at which it first had a quorum.
#[derive(Clone, Copy)]
pub struct Tally {
    pub block: Certificate,
    pub opener: Option<u8>,
    pub reached: Option<u32>,
}

// What a joining is told: the settings, the clock, and the author who opens the tally if it is missing.
#[derive(Clone, Copy)]
pub struct Moment {
    pub settings: Settings,
    pub clock: u32,
    pub opener: Option<u8>,
}

// Who joins a tally: the author of a vote, who opens it if it is missing, or a mask of several, which nobody does it for.
#[derive(Clone, Copy)]
pub enum Voters {
    One(u64),
    Mask(u16),
}

impl Tally {
    // A block's tally before anybody joins it, with who opens it.
    pub fn empty(block: Certificate, moment: Moment) -> Tally
        ensures { tally_of result ≡ opened (moment_of moment) (with_voters 0 (block_of block)) }
    {
        Tally {
            block: Certificate { mask: 0, ..block },
            opener: moment.opener,
            reached: None,
        }
    }

    // The tally with a voter's bit joined.
    pub fn with_voter(self, moment: Moment, station: u64) -> Tally
        requires { station < mask_bits }
        ensures { tally_of result ≡ grown (moment_of moment) (tally_of self) (only station) }
    {
        self.grown(moment, settings::only(station) as u16)
    }

    // The tally with a mask joined.
    pub fn grown(self, moment: Moment, mask: u16) -> Tally
        ensures { tally_of result ≡ grown (moment_of moment) (tally_of self) mask }
    {
        let voters = settings::joined(self.block.mask, mask);
        let reached = moment.reached(self.reached, voters);
        Tally {
            block: Certificate {
                mask: voters,
                ..self.block
            },
            reached,
            ..self
        }
    }

    // The tally with whoever joins it.
    pub fn joined(self, moment: Moment, voters: Voters) -> Tally
        requires { Numbered voters }
        ensures { tally_of result ≡ grown (moment_of moment) (tally_of self) (voters_of voters) }
    {
        match voters {
            Voters::One(station) => self.with_voter(moment, station),
            Voters::Mask(mask) => self.grown(moment, mask),
        }
    }
}

impl Moment {
    // The clock that a tally has kept stays; one that has none keeps the present one once this mask is a quorum.
    fn reached(self, kept: Option<u32>, mask: u16) -> Option<u32>
        ensures { told result ≡ reached_at (moment_of self) (told kept) mask }
    {
        match kept {
            Some(_) => kept,
            None => self.settings.quorum(u64::from(mask)).then_some(self.clock),
        }
    }
}

impl Voters {
    // Who opens a tally by joining it: the author of a vote; a mask says nobody.
    pub fn opener(self) -> Option<u8>
        requires { Numbered self }
        ensures { told result ≡ author_of self }
    {
        match self {
            Voters::One(author) => Some(author as u8),
            Voters::Mask(_) => None,
        }
    }
}
