// Which answers of the station keep an input in a journal.
#![tactic(auto)]

ghost use Rattle.std.specs.Prelude.{◌≡◌};
ghost use Rattle.keeping.specs.Taken.{is_taken};

// Whether an answer is one that a journal's input gets: 0, 6, 7 or 8.
pub fn is_taken(answer: u64) -> bool
    ensures { result ≡ is_taken answer }
{
    slots::is_kept(answer / 4_294_967_296)
}
