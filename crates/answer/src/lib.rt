// Why a call refuses an input, as document 01 and the requests number it, and how a host is told.
#![tactic(auto)]

ghost use Rattle.std.specs.Prelude.{◌≡◌, ◌*◌, ◌^◌, ◌<◌};
ghost use Rattle.answer.specs.Numbers.{number_of};

// A refusal. Full, Split and Clock also stop the station.
#[derive(Clone, Copy, Debug, PartialEq, Eq)]
pub enum Refusal {
    Lengths,
    Malformed,
    Stopped,
    Unreadable,
    NotAllowed,
    Full,
    Split,
    Clock,
    NoOffer,
    BadSettings,
    Ahead,
    UsedUp,
    Journal,
    Envelope,
    Slip,
}

impl Refusal {
    // Its number.
    pub fn number(self) -> u64
        ensures { result ≡ number_of self }
    {
        match self {
            Refusal::Lengths => 1,
            Refusal::Malformed => 2,
            Refusal::Stopped => 3,
            Refusal::Unreadable => 4,
            Refusal::NotAllowed => 5,
            Refusal::Full => 6,
            Refusal::Split => 7,
            Refusal::Clock => 8,
            Refusal::NoOffer => 9,
            Refusal::BadSettings => 10,
            Refusal::Ahead => 11,
            Refusal::UsedUp => 12,
            Refusal::Journal => 13,
            Refusal::Envelope => 14,
            Refusal::Slip => 15,
        }
    }

    // What a host is told: the number times 2^32, and no count.
    pub fn answer(self) -> u64
        ensures { result ≡ number_of self * 2 ^ 32 }
    {
        refuse(self.number())
    }
}

// What a host is told of a refusal by its number.
pub fn refuse(number: u64) -> u64
    requires { number < 2 ^ 32 }
    ensures { result ≡ number * 2 ^ 32 }
{
    number << 32
}
