// Lines of a script that ask and change nothing: a slip, when a block was certified, a choice of two statuses, the wall display; and how an answer is printed.
#![tactic(auto)]

use page::Page;
use said::show;
use said::show::Out;
use stored::Store;

// Prints the answer to a line.
pub fn answered(rt: &impl Print, number: u64, what: &[u8], answer: u64, out: &Out) {
    let mut page = Page::new(rt);
    show::start(&mut page, number, what);
    show::answer(&mut page, answer, out);
    page.finish();
}

// The slip of a logged block, in hex, which changes nothing.
pub fn slip(rt: &impl Print, store: &Store, number: u64, name: &[u8]) {
    let mut out = show::out_buffer();
    let answer = slip_writer::slip_write(store, name, &mut out);
    let mut page = Page::new(rt);
    show::start(&mut page, number, b"slip");
    show::slip(&mut page, answer, &out);
    page.finish();
}

// When a block was certified, which changes nothing.
pub fn certified(rt: &impl Print, store: &Store, number: u64, view: u64, height: u64, name: &[u8]) {
    let answer = certified::station_certified(store, view, height, name);
    let mut page = Page::new(rt);
    show::start(&mut page, number, b"certified");
    show::certified(&mut page, answer);
    page.finish();
}

// Which of two status messages is to be built on, in a group of as many stations as the store's.
pub fn choose(rt: &impl Print, store: &Store, number: u64, bytes: &[u8], first: usize) {
    let mut page = Page::new(rt);
    show::start(&mut page, number, b"choose");
    if first <= bytes.len() {
        chosen(
            &mut page,
            stored::stations(store),
            &bytes[..first],
            &bytes[first..],
        );
    }
    page.finish();
}

// The choice in words, and the certificate part of the one that is taken.
fn chosen<P: Print>(page: &mut Page<P>, n: u64, one: &[u8], other: &[u8]) {
    match choose::status_choose(0, n, one, other) {
        1 => page.say(b": the first # "),
        2 => page.say(b": the second # "),
        _ => page.say(b": neither # "),
    }
    page.bytes(choose::choose(0, n, one, other));
    page.put(b'\n');
}

// The wall display, which changes nothing.
pub fn wall_display(rt: &impl Print, store: &Store, number: u64) {
    let mut out = show::out_buffer();
    let answer = display::station_display(store, &mut out);
    answered(rt, number, b"display", answer, &out);
}
