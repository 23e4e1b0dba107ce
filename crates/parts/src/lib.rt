// The fields of a line. A field is known by its tag on the wire; a plain number, as those of `fresh` and `tick`, has tag 0.
#![tactic(auto)]

ghost use Rattle.std.specs.Prelude.{◌≡◌, ◌≤◌, length, drop};
ghost use Rattle.parts.specs.Fields.{field_of, unlabelled};
ghost use Rattle.text.specs.Places.{WordOf};
ghost use Rattle.parts.specs.Places.{small, Says, FieldRead, Ended};

use fields::Name;
use text::Span;

// What is wrong with a line: the first word is unknown; a word is missing; a word is too many; a number, hex, a name or a mask isn't
// one, or is too large for its field; the bytes have no room.
#[derive(Clone, Copy, Debug, PartialEq, Eq)]
pub enum Flaw {
    Word,
    Missing,
    Extra,
    Number,
    Hex,
    Name,
    Mask,
    Long,
}

// The sort of a field: a number up to the largest, a name or a mask.
#[derive(Clone, Copy)]
pub enum Sort {
    Number(u64),
    Name,
    Mask,
}

// What a field says, a number as the last word of a name, and how far the line was read with it.
#[derive(Clone, Copy)]
pub struct Part {
    pub value: Name,
    pub next: usize,
}

// The next word, behind the label if that stands first.
fn unlabelled(line: &[u8], at: usize, label: &[u8]) -> Span
    requires { at ≤ length line.now }
    ensures { WordOf line.now (unlabelled label.now (drop at line.now)) result }
{
    let first = text::word(line, at);
    let start = first.start;
    let end = first.end;
    if &line[start..end] == label {
        return text::word(line, end);
    }
    first
}

// The word that says a field.
fn word_of(line: &[u8], at: usize, tag: u8) -> Span
    requires { at ≤ length line.now }
    ensures { WordOf line.now (unlabelled (field_of tag).label (drop at line.now)) result }
{
    match tag {
        2 => unlabelled(line, at, b"view"),
        3 => unlabelled(line, at, b"height"),
        4 => unlabelled(line, at, b"name"),
        5 => unlabelled(line, at, b"parent"),
        6 => unlabelled(line, at, b"certificate"),
        7 => unlabelled(line, at, b"mask"),
        8 => unlabelled(line, at, b"author"),
        _ => unlabelled(line, at, b""),
    }
}

// The sort of a field.
fn sort_of(tag: u8) -> Sort
    ensures { result ≡ (field_of tag).sort }
{
    match tag {
        2 => Sort::Number(0xFFFF_FFFF),
        3 => Sort::Number(0xFFFF_FFFF),
        4 => Sort::Name,
        5 => Sort::Name,
        6 => Sort::Number(0xFFFF_FFFF),
        7 => Sort::Mask,
        8 => Sort::Number(0xFF),
        _ => Sort::Number(0xFFFF_FFFF_FFFF_FFFF),
    }
}

// A number as a name.
pub fn small(value: u64) -> Name
    ensures { result ≡ small value }
{
    Name {
        first: 0,
        second: 0,
        third: 0,
        fourth: value,
    }
}

// What a word says as a field of a sort.
fn value_of(word: &[u8], sort: Sort) -> Result<Name, Flaw>
    ensures { Says sort word.now result }
{
    match sort {
        Sort::Number(most) => {
            let value = numbers::decimal(word, most).ok_or(Flaw::Number)?;
            Ok(small(value))
        }
        Sort::Name => hex_words::name(word).ok_or(Flaw::Name),
        Sort::Mask => {
            let value = numbers::mask(word).ok_or(Flaw::Mask)?;
            Ok(small(value))
        }
    }
}

// The field at a place.
pub fn field(line: &[u8], at: usize, tag: u8) -> Result<Part, Flaw>
    requires { at ≤ length line.now }
    ensures { FieldRead line.now at tag result }
{
    let word = word_of(line, at, tag);
    let start = word.start;
    let next = word.end;
    if start == next {
        return Err(Flaw::Missing);
    }
    let value = value_of(&line[start..next], sort_of(tag))?;
    Ok(Part { value, next })
}

// That no word is left.
pub fn ending(line: &[u8], at: usize) -> Result<(), Flaw>
    requires { at ≤ length line.now }
    ensures { Ended line.now at result }
{
    let word = text::word(line, at);
    if word.start < word.end {
        return Err(Flaw::Extra);
    }
    Ok(())
}
