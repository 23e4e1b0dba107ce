// What is printed of each line: what it was, and the answer or what is wrong with it.
ghost use Rattle.std.specs.Prelude.{◌≡◌, length};
ghost use Rattle.rules.specs.Limits.{least_out_small};

use crate::sent;
use page::Page;
use parts::Flaw;
use settings::Settings;

// An out buffer of the least length that a station takes.
pub type Out = [u8; Settings::LEAST_OUT];

// An out buffer. The contract gives only the length, which lending it as a slice needs.
pub fn out_buffer() -> Out
    ensures { least_out_small ≡ length result }
{
    [0; Settings::LEAST_OUT]
}

// What each answer's number is multiplied by, for a count of bytes beside it.
const UNIT: u64 = 4_294_967_296;

// The line's number, and what it is.
pub fn start<P: Print>(page: &mut Page<P>, line: u64, what: &[u8]) {
    spell::number(page, b"line ", line);
    page.say(b": ");
    page.say(what);
}

// The reasons of refusals, in the words of 01 and 02.
pub fn reason<P: Print>(page: &mut Page<P>, refusal: u64) {
    match refusal {
        1 => page.say(
            b" store not of its exact length, offered name not 32 bytes, or out buffer too short\n",
        ),
        2 => page.say(b" store not well formed\n"),
        3 => page.say(b" already stopped\n"),
        4 => page.say(b" unreadable message\n"),
        5 => page.say(b" message not allowed\n"),
        6 => page.say(b" no record free for what this input must add\n"),
        7 => page.say(b" a due commit differs from the log at a height\n"),
        8 => page.say(b" tick at clock 4,000,000,000\n"),
        9 => page.say(b" offer not to be taken\n"),
        10 => page.say(b" bad settings for a fresh store\n"),
        _ => later_reason(page, refusal),
    }
}

// Those of 02; of a number that is none of theirs nothing is said.
fn later_reason<P: Print>(page: &mut Page<P>, refusal: u64) {
    match refusal {
        11 => page.say(b" more than one view ahead of the view held or last quit\n"),
        12 => page.say(b" the vote's author has opened as many tallies as one may\n"),
        13 => page.say(b" no slot left in the plain engine's list\n"),
        14 => page.say(b" no good envelope\n"),
        15 => page.say(b" no slip: the name is not logged\n"),
        _ => page.say(b"\n"),
    }
}

// The refusal of an answer; 0 is done.
pub fn refusal(answer: u64) -> u64 {
    answer / UNIT
}

// A refusal's number and reason.
pub fn refused<P: Print>(page: &mut Page<P>, refusal: u64) {
    spell::number(page, b": ", refusal);
    reason(page, refusal);
}

// How many bytes were written, and the words behind their number.
fn counted<P: Print>(page: &mut Page<P>, count: u64, words: &[u8]) {
    spell::number(page, b": 0 done, ", count);
    page.say(words);
}

// An answer: a refusal, or how many bytes were written and what they say.
pub fn answer<P: Print>(page: &mut Page<P>, answer: u64, out: &Out) {
    let number = refusal(answer);
    if number != 0 {
        refused(page, number);
        return;
    }
    let count = answer % UNIT;
    counted(page, count, b" bytes\n");
    sent::first(page, out, count as usize);
}

// An answer that is a slip: a refusal, or its bytes in hex.
pub fn slip<P: Print>(page: &mut Page<P>, answer: u64, out: &Out) {
    let number = refusal(answer);
    if number != 0 {
        refused(page, number);
        return;
    }
    let count = answer % UNIT;
    counted(page, count, b" bytes\n  slip: ");
    sent::bytes(page, out, count as usize);
}

// An answer that is a clock: a refusal, none, or the clock.
pub fn certified<P: Print>(page: &mut Page<P>, answer: u64) {
    let number = refusal(answer);
    if number != 0 {
        refused(page, number);
    } else if answer == 0 {
        page.say(b": none\n");
    } else {
        spell::number(page, b": at clock ", answer - 1);
        page.put(b'\n');
    }
}

// A tick, by the clock that it leads to, without its answer.
pub fn tick<P: Print>(page: &mut Page<P>, line: u64, clock: u64) {
    start(page, line, b"tick ");
    page.decimal(clock);
}

// Ticks that said nothing: those behind one clock, up to another.
pub fn quiet<P: Print>(page: &mut Page<P>, line: u64, from: u64, to: u64) {
    if to <= from {
        return;
    }
    if to - from == 1 {
        tick(page, line, to);
        page.say(b": 0 done, 0 bytes\n");
        return;
    }
    start(page, line, b"ticks ");
    page.decimal(from + 1);
    spell::number(page, b" to ", to);
    page.say(b": 0 done, 0 bytes each\n");
}

// A line with an envelope: how many messages are in it, or the refusal.
pub fn envelope(rt: &impl Print, line: u64, answer: u64) {
    let mut page = Page::new(rt);
    start(&mut page, line, b"envelope");
    let number = refusal(answer);
    if number != 0 {
        refused(&mut page, number);
    } else {
        counted(&mut page, answer, b" messages\n");
    }
    page.finish();
}

// What is wrong with a line.
fn flaw<P: Print>(page: &mut Page<P>, flaw: Flaw) {
    match flaw {
        Flaw::Word => page.say(b"the first word is not known\n"),
        Flaw::Missing => page.say(b"a word is missing\n"),
        Flaw::Extra => page.say(b"a word too many\n"),
        Flaw::Number => page.say(b"not a decimal number, or too large\n"),
        Flaw::Hex => page.say(b"not hex digits in pairs\n"),
        Flaw::Name => page.say(b"not a name of 1 to 64 hex digits\n"),
        Flaw::Mask => page.say(b"not a mask of station numbers joined by +\n"),
        Flaw::Long => page.say(b"too many bytes\n"),
    }
}

// A line that is none.
pub fn bad(rt: &impl Print, line: u64, wrong: Flaw) {
    let mut page = Page::new(rt);
    start(&mut page, line, b"not taken: ");
    flaw(&mut page, wrong);
    page.finish();
}

// A line that is too long.
pub fn long(rt: &impl Print, line: u64) {
    let mut page = Page::new(rt);
    start(&mut page, line, b"not taken: longer than 4,096 bytes\n");
    page.finish();
}

// The count of the lines and of the bad ones.
pub fn end_of_script(rt: &impl Print, lines: u64, bad: u64) {
    let mut page = Page::new(rt);
    spell::number(&mut page, b"end of script: ", lines);
    spell::number(&mut page, b" lines, ", bad);
    page.say(b" bad\n");
    page.finish();
}
