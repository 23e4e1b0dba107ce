// The tallies, held by value, for the plain engine. The array has the room of three tallies beyond the limit: no call adds more than
// two, and a joining asks for a free place. So a rule runs first, and its tables are measured afterwards, as the definitions have it.
#![tactic(auto)]

ghost use Rattle.std.specs.Prelude.{◌≡◌, [], ◌<◌, IfSome, position};
ghost use Rattle.rules.specs.Lists.{any};
ghost use Rattle.rules.specs.Words as words;
ghost use Rattle.settings.specs.Made.{settings_of};
ghost use Rattle.plain_words.specs.Meaning.{certificate_of, noted_of};
ghost use Rattle.plain_words.specs.Places.{Within};
ghost use Rattle.plain_tallies.specs.Meaning.{opener_of, moment_of, tally_of, tallies, room, Holds, best_of};

use fields::Name;
use plain_words::Certificate;
use settings::Settings;

// The room of the table.
pub const ROOM: usize = Settings::MOST_TALLIES + 3;

// A tally, with the author of the vote that opened it, if one did, and the clock at which it first reached a quorum.
#[derive(Clone, Copy)]
pub struct Tally {
    pub view: u32,
    pub height: u32,
    pub name: Name,
    pub mask: u16,
    pub opener: Option<u8>,
    pub reached: Option<u32>,
}

#[derive(Clone, Copy)]
pub struct Tallies {
    pub items: [Tally; ROOM],
    pub count: usize,
}

// What a joining is told: the settings, the clock, and who opens the tally if it is missing.
#[derive(Clone, Copy)]
pub struct Moment {
    pub settings: Settings,
    pub clock: u32,
    pub opener: Option<u8>,
}

// The clock that a tally keeps: the one that it has, or the present one once a mask is a quorum.
fn reached_at(moment: Moment, reached: Option<u32>, mask: u16) -> Option<u32>
    ensures { noted_of result ≡ words.reached_at (moment_of moment) (noted_of reached) mask }
{
    match reached {
        Some(_) => reached,
        None => moment
            .settings
            .quorum(u64::from(mask))
            .then_some(moment.clock),
    }
}

// A tally that somebody opens for a certificate.
fn opened(moment: Moment, t: Certificate) -> Tally
    ensures { tally_of result ≡ words.opened (moment_of moment) (certificate_of t) }
{
    Tally {
        view: t.view,
        height: t.height,
        name: t.name,
        mask: t.mask,
        opener: moment.opener,
        reached: reached_at(moment, None, t.mask),
    }
}

// "Adding a voter to a tally gives back the grown tally".
fn grown(moment: Moment, mut t: Tally, mask: u16) -> Tally
    ensures { tally_of result ≡ words.grown (moment_of moment) (tally_of t) mask }
{
    t.mask |= mask;
    t.reached = reached_at(moment, t.reached, t.mask);
    t
}

// What a tally certifies.
fn certificate_of(t: Tally) -> Certificate
    ensures { certificate_of result ≡ words.certificate_of (tally_of t) }
{
    Certificate {
        view: t.view,
        height: t.height,
        name: t.name,
        mask: t.mask,
    }
}

// Whether a tally is a block's.
fn is_of_block(t: Certificate, tally: Tally) -> bool
    ensures { result ≡ words.of_block (certificate_of t) (tally_of tally) }
{
    plain_words::same_block(t, certificate_of(tally))
}

// Whether a tally's opener is this author.
fn is_author(author: u8, opener: Option<u8>) -> bool
    ensures { result ≡ words.is_author author (opener_of opener) }
{
    Some(author) == opener
}

// A tally before the highest certificate of those behind it: its own, where it is of an earlier view, certified and higher.
fn better(settings: Settings, view: u32, t: Tally, best: Certificate) -> Certificate
    ensures { certificate_of result ≡ best_of (settings_of settings) view (tally_of t) (certificate_of best) }
{
    let own = certificate_of(t);
    let certified = settings.quorum(u64::from(t.mask));
    let higher = plain_words::higher(own, best);
    if (t.view < view) & certified & higher {
        return own;
    }
    best
}

impl Tallies {
    // No tallies.
    pub fn none() -> Tallies
        ensures { Holds result [] }
    {
        let tally = Tally {
            view: 0,
            height: 0,
            name: Name::zero(),
            mask: 0,
            opener: None,
            reached: None,
        };
        Tallies {
            items: [tally; ROOM],
            count: 0,
        }
    }

    // Where a block's tally stands.
    fn place_of(self, t: Certificate) -> Option<usize>
        requires { Within room self.items self.count }
        ensures found { result ≡ position (words.of_block (certificate_of t)) (tallies self) }
        ensures below { IfSome result (λ i. i < self.count) }
    {
        self.items[..self.count]
            .iter()
            .position(|tally| is_of_block(t, *tally))
    }

    // Whether a block has a tally.
    pub fn any_of(self, t: Certificate) -> bool
        requires { Within room self.items self.count }
        ensures { result ≡ any (words.of_block (certificate_of t)) (tallies self) }
    {
        self.place_of(t).is_some()
    }

    // "The voters that a block's tally has".
    pub fn voters(self, t: Certificate) -> u16
        requires { Within room self.items self.count }
        ensures { result ≡ words.voters (certificate_of t) (tallies self) }
    {
        match self.place_of(t) {
            Some(i) => self.items[i].mask,
            None => 0,
        }
    }

    // "A mask joins its tally, opened if missing".
    pub fn join(mut self, moment: Moment, t: Certificate) -> Tallies
        requires { (Within room self.items self.count) × (self.count < room) }
        ensures { Holds result (words.join (moment_of moment) (certificate_of t) (tallies self)) }
    {
        if let Some(i) = self.place_of(t) {
            self.items[i] = grown(moment, self.items[i], t.mask);
            return self;
        }
        self.items[self.count] = opened(moment, t);
        self.count += 1;
        self
    }

    // "Genesis is certified in view 0 and has no tally there".
    pub fn join_certificate(self, moment: Moment, t: Certificate) -> Tallies
        requires { (Within room self.items self.count) × (self.count < room) }
        ensures { Holds result (words.join_certificate (moment_of moment) (certificate_of t) (tallies self)) }
    {
        if t.view == 0 {
            return self;
        }
        self.join(moment, t)
    }

    // How many tallies an author opened.
    pub fn opened_by(self, author: u8) -> usize
        requires { Within room self.items self.count }
        ensures { result ≡ words.opened_by author (tallies self) }
    {
        self.items[..self.count]
            .iter()
            .filter(|tally| is_author(author, tally.opener))
            .count()
    }

    // "The highest certificate of an earlier view".
    pub fn highest(self, settings: Settings, view: u32) -> Certificate
        requires { Within room self.items self.count }
        ensures { certificate_of result ≡ words.highest (settings_of settings) view (tallies self) }
    {
        self.items[..self.count].iter().rev().fold(
            plain_words::genesis(),
            |best, tally| better(settings, view, *tally, best),
        )
    }
}
