// The names of a log held by value, written out for the plain engine.
#![tactic(auto)]

ghost use Rattle.std.specs.Prelude.{◌≡◌, ◌+◌, ◌*◌, ◌≤◌, length};
ghost use Rattle.rules.specs.Lists.{unbe};
ghost use Rattle.fields.specs.Names.{name_of};
ghost use Rattle.outgoing.specs.Wrote.{wrote};
ghost use Rattle.lent_list.specs.Plain.{log_bytes};
ghost use Rattle.plain_words.specs.Places.{Within};
ghost use Rattle.plain_tables.specs.Meaning.{names, room};

use fields::Name;
use plain_tables::Names;

// Writes a name at a place.
fn write_name(out: &mut [u8], at: usize, name: Name)
    requires { at + 32 ≤ length out.old }
    ensures { out.new ≡ wrote out.old at (unbe 32 (name_of name)) }
{
    fields::put_name(out, at, name);
}

// Writes the names of a log, and counts their bytes.
pub fn write_log(log: Names, out: &mut [u8]) -> usize
    requires { (Within room log.items log.count) × (32 * room ≤ length out.old) }
    ensures { (out.new ≡ wrote out.old 0 (log_bytes (names log))) × (result ≡ length (log_bytes (names log))) }
{
    let n = log.count;
    for k in 0..n {
        let name = log.items[k];
        write_name(out, 32 * k, name);
    }
    32 * n
}
