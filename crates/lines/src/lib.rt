// What a line of a script means, read from its bytes. docs/SCRIPT.md has the form, specs/Script.antt says it exactly.
#![tactic(auto)]

ghost use Rattle.std.specs.Prelude.{◌≤◌, [], length, drop};
ghost use Rattle.rules.specs.Lists.{unbe};
ghost use Rattle.fields.specs.Names.{name_of};
ghost use Rattle.parts.specs.Fields.{reads};
ghost use Rattle.lines.specs.Script.{Meaning, line_of, given, meant, spoken, freshened, ticked, hexed, alone, slipped, certified, chosen};
ghost use Rattle.lines.specs.Kinds.{number_of};
ghost use Rattle.lines.specs.Answers.{Reads, WritesNothing, or_bad, HexWord, LastHex};

use fields::Name;
use kinds::Kind;
use parts::Flaw;
use text::Span;

mod kinds;

// What the bytes of a line are: a message, an offered name, an envelope, the name of a slip, the name of a block of a view and a height,
// or two messages, the first of so many bytes.
#[derive(Clone, Copy, Debug, PartialEq, Eq)]
pub enum What {
    Message,
    Offer,
    Envelope,
    Slip,
    Certified { view: u64, height: u64 },
    Choose { first: usize },
}

// What a line asks for. Its bytes stand at the start of the lent buffer.
#[derive(Clone, Copy, Debug, PartialEq, Eq)]
pub enum Line {
    Blank,
    Fresh { n: u64, delay: u64, own: u64 },
    Tick { count: u64 },
    Bytes { what: What, len: usize },
    Log,
    State,
    Display,
    Bad(Flaw),
}

// Reads a line: any bytes, any buffer.
pub fn read_line(line: &[u8], bytes: &mut [u8]) -> Line
    ensures { Reads (line_of line.now) bytes.old bytes.new result }
{
    match read(line, bytes) {
        Ok(asked) => asked,
        Err(flaw) => Line::Bad(flaw),
    }
}

// The same, with what is wrong apart.
fn read(line: &[u8], bytes: &mut [u8]) -> Result<Line, Flaw>
    ensures { Reads (line_of line.now) bytes.old bytes.new (or_bad result) }
{
    let first = text::word(line, 0);
    let start = first.start;
    let at = first.end;
    if start == at {
        return Ok(Line::Blank);
    }
    let order = text::which(
        b"new-view propose vote blame blame-set status fresh tick message offer log state display envelope choose slip certified",
        &line[start..at],
    );
    match order {
        1 => spoken(line, at, Kind::NewView, bytes),
        2 => spoken(line, at, Kind::Propose, bytes),
        3 => spoken(line, at, Kind::Vote, bytes),
        4 => spoken(line, at, Kind::Blame, bytes),
        5 => spoken(line, at, Kind::BlameSet, bytes),
        6 => spoken(line, at, Kind::Status, bytes),
        7 => fresh(line, at),
        8 => tick(line, at),
        9 => hexed(line, at, What::Message, bytes),
        10 => hexed(line, at, What::Offer, bytes),
        11 => alone(line, at, Line::Log),
        12 => alone(line, at, Line::State),
        13 => alone(line, at, Line::Display),
        14 => hexed(line, at, What::Envelope, bytes),
        15 => chosen(line, at, bytes),
        16 => slip(line, at, bytes),
        17 => certified(line, at, bytes),
        _ => Err(Flaw::Word),
    }
}

// A line of one word.
fn alone(line: &[u8], at: usize, asked: Line) -> Result<Line, Flaw>
    requires { at ≤ length line.now }
    ensures { (m : Meaning) → WritesNothing m asked → WritesNothing (alone m (drop at line.now)) (or_bad result) }
{
    parts::ending(line, at)?;
    Ok(asked)
}

// A fresh store.
fn fresh(line: &[u8], at: usize) -> Result<Line, Flaw>
    requires { at ≤ length line.now }
    ensures { WritesNothing (freshened (drop at line.now)) (or_bad result) }
{
    let n = parts::field(line, at, 0)?;
    let delay = parts::field(line, n.next, 0)?;
    let own = parts::field(line, delay.next, 0)?;
    parts::ending(line, own.next)?;
    Ok(Line::Fresh {
        n: n.value.fourth,
        delay: delay.value.fourth,
        own: own.value.fourth,
    })
}

// One tick, or as many as are said.
fn tick(line: &[u8], at: usize) -> Result<Line, Flaw>
    requires { at ≤ length line.now }
    ensures { WritesNothing (ticked (drop at line.now)) (or_bad result) }
{
    let word = text::word(line, at);
    if word.start == word.end {
        return Ok(Line::Tick { count: 1 });
    }
    let count = parts::field(line, at, 0)?;
    parts::ending(line, count.next)?;
    Ok(Line::Tick {
        count: count.value.fourth,
    })
}

// The word of bytes in hex at a place.
fn hex_word(line: &[u8], at: usize) -> Result<Span, Flaw>
    requires { at ≤ length line.now }
    ensures { HexWord line.now at result }
{
    let word = text::word(line, at);
    let start = word.start;
    let end = word.end;
    if start == end {
        return Err(Flaw::Missing);
    }
    if !hex_words::is_bytes(&line[start..end]) {
        return Err(Flaw::Hex);
    }
    Ok(word)
}

// The same, with no word behind it.
fn last_hex(line: &[u8], at: usize) -> Result<Span, Flaw>
    requires { at ≤ length line.now }
    ensures { LastHex line.now at result }
{
    let word = hex_word(line, at)?;
    parts::ending(line, word.end)?;
    Ok(word)
}

// Bytes in hex, written to the buffer.
fn hexed(line: &[u8], at: usize, what: What, bytes: &mut [u8]) -> Result<Line, Flaw>
    requires { at ≤ length line.now }
    ensures { Reads (hexed what (drop at line.now)) bytes.old bytes.new (or_bad result) }
{
    let word = last_hex(line, at)?;
    let start = word.start;
    let end = word.end;
    let len = (end - start) / 2;
    if bytes.len() < len {
        return Err(Flaw::Long);
    }
    hex_words::write_bytes(&line[start..end], bytes, 0);
    Ok(Line::Bytes { what, len })
}

// Two words of bytes in hex.
fn chosen(line: &[u8], at: usize, bytes: &mut [u8]) -> Result<Line, Flaw>
    requires { at ≤ length line.now }
    ensures { Reads (chosen (drop at line.now)) bytes.old bytes.new (or_bad result) }
{
    let word = hex_word(line, at)?;
    let start = word.start;
    let end = word.end;
    let other = last_hex(line, end)?;
    let from = other.start;
    let to = other.end;
    let first = (end - start) / 2;
    let len = first + (to - from) / 2;
    if bytes.len() < len {
        return Err(Flaw::Long);
    }
    hex_words::write_bytes(&line[start..end], bytes, 0);
    hex_words::write_bytes(&line[from..to], bytes, first);
    let what = What::Choose { first };
    Ok(Line::Bytes { what, len })
}

// The 32 bytes of a name that was read last, if no word is left.
fn named(line: &[u8], at: usize, name: Name, what: What, bytes: &mut [u8]) -> Result<Line, Flaw>
    requires { at ≤ length line.now }
    ensures { Reads (meant (λ _. given what (unbe 32 (name_of name))) (reads [] (drop at line.now))) bytes.old bytes.new (or_bad result) }
{
    parts::ending(line, at)?;
    if bytes.len() < 32 {
        return Err(Flaw::Long);
    }
    fields::put_name(bytes, 0, name);
    Ok(Line::Bytes { what, len: 32 })
}

// The slip of a name.
fn slip(line: &[u8], at: usize, bytes: &mut [u8]) -> Result<Line, Flaw>
    requires { at ≤ length line.now }
    ensures { Reads (slipped (drop at line.now)) bytes.old bytes.new (or_bad result) }
{
    let name = parts::field(line, at, 4)?;
    named(line, name.next, name.value, What::Slip, bytes)
}

// When a block was certified: its view, its height and its name.
fn certified(line: &[u8], at: usize, bytes: &mut [u8]) -> Result<Line, Flaw>
    requires { at ≤ length line.now }
    ensures { Reads (certified (drop at line.now)) bytes.old bytes.new (or_bad result) }
{
    let view = parts::field(line, at, 2)?;
    let height = parts::field(line, view.next, 3)?;
    let name = parts::field(line, height.next, 4)?;
    let what = What::Certified {
        view: view.value.fourth,
        height: height.value.fourth,
    };
    named(line, name.next, name.value, what, bytes)
}

// A message in words, written to the buffer.
fn spoken(line: &[u8], at: usize, kind: Kind, bytes: &mut [u8]) -> Result<Line, Flaw>
    requires { at ≤ length line.now }
    ensures { Reads (spoken (number_of kind) (drop at line.now)) bytes.old bytes.new (or_bad result) }
{
    let message = kinds::said(line, at, kind)?;
    if bytes.len() < writing::size(message) {
        return Err(Flaw::Long);
    }
    let what = What::Message;
    let len = writing::write_message(bytes, 0, message);
    Ok(Line::Bytes { what, len })
}
