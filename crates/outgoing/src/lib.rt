// Fields into an out buffer from a place on. A writer answers the place after what it wrote; a caller shows that there is room for it.
#![tactic(auto)]

ghost use Rattle.std.specs.Prelude.{[], ◌∷◌, ◌≡◌, ◌+◌, ◌^◌, ◌<◌, ◌≤◌, length};
ghost use Rattle.fields.specs.Names.{name_of};
ghost use Rattle.rules.specs.Lists.{unbe};
ghost use Rattle.rules.specs.Messages.{width as width_of, field};
ghost use Rattle.outgoing.specs.Wrote.{Says, SaysFields};

use fields::Name;

// A field with a number.
pub fn number_field(out: &mut [u8], at: usize, tag: u8, width: usize, value: u64) -> usize
    requires { (at + 3 + width ≤ length out.old) × (width ≤ 8) × (value < 256 ^ width) }
    ensures { (Says out.old at (field tag (unbe width value)) out.new result) × (result ≡ at + 3 + width) }
{
    let from = at + 3;
    fields::put(out, at, 3, (tag as u64) * 65_536 + width as u64);
    fields::put(out, from, width, value);
    from + width
}

// A field with a name.
pub fn name_field(out: &mut [u8], at: usize, tag: u8, name: Name) -> usize
    requires { at + 35 ≤ length out.old }
    ensures { (Says out.old at (field tag (unbe 32 (name_of name))) out.new result) × (result ≡ at + 35) }
{
    let from = at + 3;
    fields::put(out, at, 3, (tag as u64) * 65_536 + 32);
    fields::put_name(out, from, name);
    from + 32
}

// The fields 1 to 4: kind, view, height, name.
pub fn block(out: &mut [u8], at: usize, kind: u8, view: u32, height: u32, name: Name) -> usize
    requires { at + 53 ≤ length out.old }
    ensures { (SaysFields out.old at (1 ∷ 2 ∷ 3 ∷ 4 ∷ []) (kind ∷ view ∷ height ∷ name_of name ∷ []) out.new result) × (result ≡ at + 53) }
{
    let two = number_field(out, at, 1, 1, kind as u64);
    let three = number_field(out, two, 2, 4, view as u64);
    let four = number_field(out, three, 3, 4, height as u64);
    name_field(out, four, 4, name)
}

// The fields 7 and 8: mask, author.
pub fn ending(out: &mut [u8], at: usize, mask: u16, author: u8) -> usize
    requires { at + 9 ≤ length out.old }
    ensures { SaysFields out.old at (7 ∷ 8 ∷ []) (mask ∷ author ∷ []) out.new result }
{
    let eight = number_field(out, at, 7, 2, mask as u64);
    number_field(out, eight, 8, 1, author as u64)
}

// The fields 1, 2 and one more: kind, view, and a number.
pub fn short(
    out: &mut [u8],
    at: usize,
    kind: u8,
    view: u32,
    tag: u8,
    width: usize,
    value: u64,
) -> usize
    requires { (at + 14 + width ≤ length out.old) × (width ≤ 8) × (value < 256 ^ width) × (width ≡ width_of tag) }
    ensures { SaysFields out.old at (1 ∷ 2 ∷ tag ∷ []) (kind ∷ view ∷ value ∷ []) out.new result }
{
    let two = number_field(out, at, 1, 1, kind as u64);
    let last = number_field(out, two, 2, 4, view as u64);
    number_field(out, last, tag, width, value)
}
