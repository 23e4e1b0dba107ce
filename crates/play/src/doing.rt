// What each line does to the station.
use crate::engine::{Engine, Input};
use crate::relay;
use lines::{Line, What};
use page::Page;
use said::show;

// Plays a line, and says whether it was one. The bytes of any line of 4,096 have room.
pub fn line(rt: &impl Print, engine: &mut Engine, line: &[u8], number: u64) -> bool {
    let mut bytes = [0u8; 4096];
    match lines::read_line(line, &mut bytes) {
        Line::Blank => {}
        Line::Fresh { n, delay, own } => fresh(rt, engine, number, n, delay, own),
        Line::Tick { count } => ticks(rt, engine, number, count),
        Line::Bytes { what, len } => given(rt, engine, number, what, &bytes[..len]),
        Line::Log => engine.log(rt, number),
        Line::State => stored::state(rt, number, &engine.store),
        Line::Display => asked::wall_display(rt, &engine.store, number),
        Line::Bad(flaw) => {
            show::bad(rt, number, flaw);
            return false;
        }
    }
    true
}

// A fresh station, which writes nothing out.
fn fresh(rt: &impl Print, engine: &mut Engine, number: u64, n: u64, delay: u64, own: u64) {
    let answer = engine.fresh(n, delay, own);
    let out = show::out_buffer();
    asked::answered(rt, number, b"fresh", answer, &out);
}

// A line with bytes, by what they are.
fn given(rt: &impl Print, engine: &mut Engine, number: u64, what: What, bytes: &[u8]) {
    match what {
        What::Message => taken(rt, engine, number, b"message", Input::Message(bytes)),
        What::Offer => taken(rt, engine, number, b"offer", Input::Offer(bytes)),
        What::Envelope => relay::hand_over(rt, engine, number, bytes),
        What::Slip => asked::slip(rt, &engine.store, number, bytes),
        What::Certified { view, height } => asked::certified(
            rt,
            &engine.store,
            number,
            view,
            height,
            bytes,
        ),
        What::Choose { first } => asked::choose(rt, &engine.store, number, bytes, first),
    }
}

// A message is handed over, or a name is offered.
pub fn taken(rt: &impl Print, engine: &mut Engine, number: u64, what: &[u8], input: Input) {
    let mut out = show::out_buffer();
    let answer = engine.take(input, &mut out);
    asked::answered(rt, number, what, answer, &out);
}

// Ticks, until one is refused. What one says is told at once, and before it the ticks that said nothing, behind the last told.
fn ticks(rt: &impl Print, engine: &mut Engine, number: u64, count: u64) {
    let mut page = Page::new(rt);
    let mut out = show::out_buffer();
    let mut clock = stored::clock(&engine.store);
    let mut told = clock;
    for _ in 0..count {
        let answer = engine.take(Input::Tick, &mut out);
        let after = crate::next(clock);
        if answer != 0 {
            show::quiet(&mut page, number, told, clock);
            show::tick(&mut page, number, after);
            show::answer(&mut page, answer, &out);
            if show::refusal(answer) != 0 {
                told = clock;
                break;
            }
            told = after;
        }
        clock = after;
    }
    show::quiet(&mut page, number, told, clock);
    page.finish();
}
