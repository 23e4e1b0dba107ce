// Two stored statements that conflict, held by value, for the plain engine, straight from the definition.
#![tactic(auto)]

ghost use Rattle.std.specs.Prelude.{◌≡◌, ◌≤◌, drop};
ghost use Rattle.std.proofs.Math.Option.{none};
ghost use Rattle.rules.specs.Lists.{first};
ghost use Rattle.rules.specs.Words as words;
ghost use Rattle.rules.specs.Inputs as inputs;
ghost use Rattle.wire.specs.Meaning.{statement_of};
ghost use Rattle.plain_words.specs.Places.{Within};
ghost use Rattle.plain_statements.specs.Meaning.{statements, found_of, room};
ghost use Rattle.plain_pairs.specs.Pairs.{two_of};

use plain_statements::{Held, Statements};
use wire::Statement;

// The first that conflicts, from a place on.
fn conflict_from(xs: Statements, from: usize, x: Statement) -> Option<Held>
    requires { (Within room xs.items xs.count) × (from ≤ xs.count) }
    ensures { found_of result ≡ first (words.conflict (statement_of x none)) (drop from (statements xs)) }
{
    xs.items[from..xs.count]
        .iter()
        .find(|y| plain_words::conflict(x, y.statement))
        .copied()
}

// "Two stored statements of it conflict (least place of the earlier, then of the later)".
pub fn pair(xs: Statements) -> Option<(Held, Held)>
    requires { Within room xs.items xs.count }
    ensures { two_of result ≡ inputs.pair (statements xs) }
{
    for i in 0..xs.count {
        let x = xs.items[i];
        if let Some(y) = conflict_from(xs, i + 1, x.statement) {
            return Some((x, y));
        }
    }
    None
}
