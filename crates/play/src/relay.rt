// A relay envelope: every message inside is handed over, in order.
ghost use Rattle.std.specs.Prelude.{◌≡◌, length};

use crate::doing;
use crate::engine::{Engine, Input};
use said::show;

// Hands over the messages of an envelope; of one that is refused none.
pub fn hand_over(rt: &impl Print, engine: &mut Engine, number: u64, bytes: &[u8]) {
    let mut places = [0u8; 4096];
    let answer = envelope::envelope_read(bytes, &mut places);
    show::envelope(rt, number, answer);
    if show::refusal(answer) != 0 {
        return;
    }
    for place in places.chunks_exact(8).take(answer as usize) {
        one(rt, engine, number, bytes, place);
    }
}

// Hands over the message of a place: where it begins, and its length.
fn one(rt: &impl Print, engine: &mut Engine, number: u64, bytes: &[u8], place: &[u8])
    requires { length place.now ≡ 8 }
{
    let offset = fields::get(place, 0, 4) as usize;
    let end = offset + fields::get(place, 4, 4) as usize;
    if end <= bytes.len() {
        let message = Input::Message(&bytes[offset..end]);
        doing::taken(rt, engine, number, b"message", message);
    }
}
