// An entry of a slip: a propose at its fixed places, and the parent that it leads to. It knows messages and settings, and nothing of a store.
#![tactic(auto)]

ghost use Rattle.std.specs.Prelude.{◌≡◌, ◌+◌, ◌≤◌, length};
ghost use Rattle.std.proofs.Math.Option.{none};
ghost use Rattle.fields.specs.Names.{name_of};
ghost use Rattle.settings.specs.Made.{settings_of};
ghost use Rattle.wire.specs.Meaning.{statement_of};
ghost use Rattle.slip_entries.specs.Heads.{heads_stand, propose_at};
ghost use Rattle.slip_entries.specs.Entries.{entry_at, parent_in};
ghost use Rattle.slip_entries.specs.Meaning.{entry_of, link_of};

use fields::Name;
use settings::Settings;
use wire::Statement;

// The bytes of an entry's field.
pub const ENTRY: usize = 100;

// Whether the heads of a propose's fields stand in the room of an entry. Every one is looked at, without a branch for another.
fn heads_stand(slip: &[u8], at: usize) -> bool
    requires { at + 100 ≤ length slip.now }
    ensures { result ≡ heads_stand slip.now at }
{
    (fields::get(slip, at, 3) == 0x41_0061)
        & (fields::get(slip, at + 3, 7) == 0x01_0001_02_02_0004)
        & (fields::get(slip, at + 14, 3) == 0x03_0004)
        & (fields::get(slip, at + 21, 3) == 0x04_0020)
        & (fields::get(slip, at + 56, 3) == 0x05_0020)
        & (fields::get(slip, at + 91, 3) == 0x07_0002)
        & (fields::get(slip, at + 96, 3) == 0x08_0001)
}

// The propose between them.
fn propose_at(slip: &[u8], at: usize) -> Statement
    requires { at + 100 ≤ length slip.now }
    ensures { statement_of result none ≡ propose_at slip.now at }
{
    let view = fields::get(slip, at + 10, 4) as u32;
    let height = fields::get(slip, at + 17, 4) as u32;
    let name = fields::get_name(slip, at + 24);
    let link = fields::get_name(slip, at + 59);
    let mask = fields::get(slip, at + 94, 2) as u16;
    let author = fields::get(slip, at + 99, 1) as u8;
    Statement {
        is_new_view: false,
        view,
        height,
        name,
        link,
        mask,
        author,
    }
}

// The propose of the entry that stands at a byte, if one does.
pub fn entry_at(slip: &[u8], at: usize) -> Option<Statement>
    requires { at ≤ length slip.now }
    ensures { entry_of result ≡ entry_at slip.now at }
{
    if slip.len() - at < ENTRY {
        return None;
    }
    if heads_stand(slip, at) {
        return Some(propose_at(slip, at));
    }
    None
}

// The parent of the entry at a byte, where that is the block of a height and a name, and is allowed.
pub fn parent_at(
    settings: Settings,
    slip: &[u8],
    at: usize,
    height: u32,
    name: Name,
) -> Option<Name>
    requires { at ≤ length slip.now }
    ensures { link_of result ≡ parent_in (settings_of settings) height (name_of name) (entry_at slip.now at) }
{
    let x = entry_at(slip, at)?;
    let asked = (name == x.name) & (height == x.height);
    if asked & allowed_statements::statement_allowed(settings, x) {
        return Some(x.link);
    }
    None
}
