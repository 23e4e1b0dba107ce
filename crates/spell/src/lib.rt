// Messages in words: each as the line by which a script hands it over.
#![tactic(auto)]

use fields::Name;
use page::Page;
use wire::{Message, Statement};

// A word and a number.
pub fn number<P: Print>(page: &mut Page<P>, word: &[u8], value: u64) {
    page.say(word);
    page.decimal(value);
}

// A word of a name, behind what stands before it: zeros in front are left out.
fn part<P: Print>(page: &mut Page<P>, before: u64, value: u64) {
    if before != 0 {
        page.hex(value, 16);
    } else if value != 0 {
        page.hex(value, 1);
    }
}

// A word and a block's name, in hex without zeros in front; genesis is 0.
pub fn name<P: Print>(page: &mut Page<P>, word: &[u8], value: Name) {
    page.say(word);
    if value.is_zero() {
        page.put(b'0');
        return;
    }
    part(page, 0, value.first);
    part(page, value.first, value.second);
    let upper = value.first | value.second;
    part(page, upper, value.third);
    part(page, upper | value.third, value.fourth);
}

// A word and the stations of a mask, joined by `+`; nobody is a dash.
pub fn mask<P: Print>(page: &mut Page<P>, word: &[u8], mask: u16) {
    page.say(word);
    if mask == 0 {
        page.put(b'-');
        return;
    }
    let mut rest = mask;
    for station in 0..16 {
        if rest % 2 == 1 {
            member(page, station, rest);
        }
        rest /= 2;
    }
}

// A station of a mask, and a `+` if others follow.
fn member<P: Print>(page: &mut Page<P>, station: u64, rest: u16) {
    page.decimal(station);
    if rest != 1 {
        page.put(b'+');
    }
}

// A view, height and name: what most messages begin with.
fn block<P: Print>(page: &mut Page<P>, word: &[u8], view: u32, height: u32, block: Name) {
    number(page, word, u64::from(view));
    number(page, b" height ", u64::from(height));
    name(page, b" name ", block);
}

// A new-view or a propose.
fn statement<P: Print>(page: &mut Page<P>, x: Statement) {
    if x.is_new_view {
        let link = x.link;
        block(page, b"new-view view ", x.view, x.height, x.name);
        number(page, b" certificate ", link.fourth);
    } else {
        block(page, b"propose view ", x.view, x.height, x.name);
        name(page, b" parent ", x.link);
    }
    mask(page, b" mask ", x.mask);
    number(page, b" author ", u64::from(x.author));
}

// A committed block, by its height and its name.
pub fn committed<P: Print>(page: &mut Page<P>, height: u64, block: Name) {
    number(page, b"committed: height ", height);
    name(page, b" name ", block);
}

// A propose on the wall display. Its ticks left are in two's complement: below zero it is overdue.
pub fn shown<P: Print>(page: &mut Page<P>, height: u64, block: Name, left: u64) {
    number(page, b"shown: height ", height);
    name(page, b" name ", block);
    if left == 0 {
        page.say(b", due now");
    } else if left <= i64::MAX as u64 {
        ticks(page, b", ", left);
        page.say(b" left");
    } else {
        ticks(page, b", overdue by ", u64::MAX - left + 1);
    }
}

// A word and a count of ticks.
fn ticks<P: Print>(page: &mut Page<P>, word: &[u8], count: u64) {
    number(page, word, count);
    if count == 1 {
        page.say(b" tick");
    } else {
        page.say(b" ticks");
    }
}

// A status: a certificate in words.
pub fn status<P: Print>(page: &mut Page<P>, height: u32, block: Name, cert: u32, voters: u16) {
    number(page, b"status height ", u64::from(height));
    name(page, b" name ", block);
    number(page, b" certificate ", u64::from(cert));
    mask(page, b" mask ", voters);
}

// A message.
pub fn message<P: Print>(page: &mut Page<P>, said: Message) {
    match said {
        Message::Stated(x) => statement(page, x),
        Message::Vote {
            view,
            height,
            name,
            author,
        } => {
            block(page, b"vote view ", view, height, name);
            number(page, b" author ", u64::from(author));
        }
        Message::Blame { view, author } => {
            number(page, b"blame view ", u64::from(view));
            number(page, b" author ", u64::from(author));
        }
        Message::BlameSet { view, mask } => {
            number(page, b"blame-set view ", u64::from(view));
            crate::mask(page, b" mask ", mask);
        }
        Message::Status {
            height,
            name,
            cert,
            mask,
        } => status(page, height, name, cert, mask),
    }
}
