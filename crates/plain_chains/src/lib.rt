// A block's chain, and how it joins the log, held by value: for the plain engine, each straight from its definition.
#![tactic(auto)]

ghost use Rattle.std.specs.Prelude.{◌≡◌, ◌<◌, ◌-◌};
ghost use Rattle.fields.specs.Names.{name_of};
ghost use Rattle.rules.specs.Lists.{first};
ghost use Rattle.rules.specs.Inputs as inputs;
ghost use Rattle.plain_words.specs.Places.{Within};
ghost use Rattle.plain_statements.specs.Meaning.{held_of, found_of, statements};
ghost use Rattle.plain_tables.specs.Meaning.{names, room};
ghost use Rattle.plain_chains.specs.Meaning.{Gives};

use fields::Name;
use plain_statements::{Held, Statements};
use plain_tables::{NAMES, Names};

// "A stored propose of that name", at a height.
fn is_block(height: u32, name: Name, x: Held) -> bool
    ensures { result ≡ inputs.is_block height (name_of name) (held_of x) }
{
    let s = x.statement;
    !s.is_new_view & (height == s.height) & (name == s.name)
}

// "The first stored propose of that name", at a height, "of any view".
fn first_block(xs: Statements, height: u32, name: Name) -> Option<Held>
    requires { Within room xs.items xs.count }
    ensures { found_of result ≡ first (inputs.is_block height (name_of name)) (statements xs) }
{
    xs.items[..xs.count]
        .iter()
        .find(|x| is_block(height, name, **x))
        .copied()
}

// One height lower.
fn lower(height: u32) -> usize
    ensures { result ≡ height - 1 }
{
    height.saturating_sub(1) as usize
}

// "A block's chain runs from it to height 1"; none where "an ancestor is not stored".
fn chain(xs: Statements, x: Held) -> Option<Names>
    requires { (Within room xs.items xs.count) × (xs.count < room) }
    ensures { Gives result (inputs.chain (statements xs) (held_of x)) }
{
    let top = lower(x.statement.height);
    if NAMES <= top {
        return None;
    }
    let mut items = Names::none().items;
    let count = top + 1;
    items[top] = x.statement.name;
    let mut link = x.statement.link;
    for k in (0..top).rev() {
        let y = first_block(xs, k as u32 + 1, link)?;
        items[k] = link;
        link = y.statement.link;
    }
    Some(Names { items, count })
}

// A chain joins the log: the longer of both, or none where "any chain name differs from the log's at its height".
fn merge(chain: Names, log: Names) -> Option<Names>
    requires { (Within room chain.items chain.count) × (Within room log.items log.count) }
    ensures { Gives result (inputs.merge (names chain) (names log)) }
{
    for k in 0..chain.count {
        if log.count <= k {
            return Some(chain);
        }
        if chain.items[k] != log.items[k] {
            return None;
        }
    }
    Some(log)
}

// "A block with an ancestor not stored is passed over".
fn commit(xs: Statements, x: Held, log: Names) -> Option<Names>
    requires { (Within room xs.items xs.count) × (xs.count < room) × (Within room log.items log.count) }
    ensures { Gives result (inputs.commit (statements xs) (held_of x) (names log)) }
{
    match chain(xs, x) {
        Some(own) => merge(own, log),
        None => Some(log),
    }
}

// The due ones in turn, each against "the log as it then stands".
pub fn commits(xs: Statements, due: Statements, log: Names) -> Option<Names>
    requires { (Within room xs.items xs.count) × (xs.count < room) × (Within room due.items due.count) × (Within room log.items log.count) }
    ensures { Gives result (inputs.commits (statements xs) (statements due) (names log)) }
{
    let mut names = log;
    for i in 0..due.count {
        names = commit(xs, due.items[i], names)?;
    }
    Some(names)
}
