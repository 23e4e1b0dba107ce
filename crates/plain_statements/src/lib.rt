// The stored statements, held by value, for the plain engine. The array has the room of one statement beyond the limit, since no
// call adds more: a rule runs first, and its tables are measured afterwards, as the definitions have it.
#![tactic(auto)]

ghost use Rattle.std.specs.Prelude.{◌≡◌, [], ◌∷◌, ◌++◌, ◌<◌, IfSome, position};
ghost use Rattle.std.proofs.Math.Option.{none};
ghost use Rattle.rules.specs.Lists.{any, first, alter};
ghost use Rattle.rules.specs.Words as words;
ghost use Rattle.rules.specs.Inputs as inputs;
ghost use Rattle.fields.specs.Names.{name_of};
ghost use Rattle.wire.specs.Meaning.{statement_of};
ghost use Rattle.plain_words.specs.Places.{Within};
ghost use Rattle.plain_statements.specs.Meaning.{held_of, statements, found_of, room, Holds, opens, uses, over};

use fields::Name;
use settings::Settings;
use wire::Statement;

// The room of the table.
pub const ROOM: usize = Settings::MOST_STATEMENTS + 1;

// A stored statement, with the clock of its vote.
#[derive(Clone, Copy)]
pub struct Held {
    pub statement: Statement,
    pub voted: Option<u32>,
}

#[derive(Clone, Copy)]
pub struct Statements {
    pub items: [Held; ROOM],
    pub count: usize,
}

// Whether a name is a statement's, or its parent's.
fn uses(x: Statement, name: Name) -> bool
    ensures { result ≡ uses (name_of name) (statement_of x none) }
{
    (name == x.name) | (!x.is_new_view & (name == x.link))
}

// A statement before the top of those behind it: itself, where it is of the view and they are not greater.
fn greater(held: Held, view: u32, best: Option<Held>) -> Option<Held>
    ensures { found_of result ≡ over view (held_of held) (found_of best) }
{
    if held.statement.view != view {
        return best;
    }
    match best {
        Some(other) if held.statement.height < other.statement.height => best,
        _ => Some(held),
    }
}

impl Statements {
    // No statements.
    pub fn none() -> Statements
        ensures { Holds result [] }
    {
        let statement = Statement {
            is_new_view: false,
            view: 0,
            height: 0,
            name: Name::zero(),
            link: Name::zero(),
            mask: 0,
            author: 0,
        };
        let held = Held {
            statement,
            voted: None,
        };
        Statements {
            items: [held; ROOM],
            count: 0,
        }
    }

    // One more, at the end.
    pub fn push(mut self, x: Statement) -> Statements
        requires { (Within room self.items self.count) × (self.count < room) }
        ensures { Holds result (statements self ++ statement_of x none ∷ []) }
    {
        self.items[self.count] = Held {
            statement: x,
            voted: None,
        };
        self.count += 1;
        self
    }

    // Whether the same statement is stored.
    pub fn any_same(self, x: Statement) -> bool
        requires { Within room self.items self.count }
        ensures { result ≡ any (words.same_statement (statement_of x none)) (statements self) }
    {
        self.items[..self.count]
            .iter()
            .any(|held| plain_words::same_statement(x, held.statement))
    }

    // "Has a new-view of that view stored".
    pub fn is_opened(self, view: u32) -> bool
        requires { Within room self.items self.count }
        ensures { result ≡ any (opens view) (statements self) }
    {
        self.items[..self.count].iter().any(|held| held.statement.is_new_view
            & (held.statement.view == view))
    }

    // "The name or parent of any stored statement".
    pub fn is_used(self, name: Name) -> bool
        requires { Within room self.items self.count }
        ensures { result ≡ any (uses (name_of name)) (statements self) }
    {
        self.items[..self.count]
            .iter()
            .any(|held| uses(held.statement, name))
    }

    // Where the same statement is stored.
    fn place_of(self, x: Statement) -> Option<usize>
        requires { Within room self.items self.count }
        ensures found { result ≡ position (words.same_statement (statement_of x none)) (statements self) }
        ensures below { IfSome result (λ i. i < self.count) }
    {
        self.items[..self.count]
            .iter()
            .position(|held| plain_words::same_statement(x, held.statement))
    }

    // "Notes the clock" of the vote for a statement.
    pub fn noted(mut self, x: Statement, clock: u32) -> Statements
        requires { Within room self.items self.count }
        ensures { Holds result (alter (words.same_statement (statement_of x none)) (inputs.noted clock) (statements self)) }
    {
        if let Some(i) = self.place_of(x) {
            self.items[i].voted = Some(clock);
        }
        self
    }

    // "The earliest stored conflicting one".
    pub fn first_conflict(self, x: Statement) -> Option<Held>
        requires { Within room self.items self.count }
        ensures { found_of result ≡ first (words.conflict (statement_of x none)) (statements self) }
    {
        self.items[..self.count]
            .iter()
            .find(|held| plain_words::conflict(x, held.statement))
            .copied()
    }

    // "The greatest-height statement of the view", the first of several.
    pub fn top(self, view: u32) -> Option<Held>
        requires { Within room self.items self.count }
        ensures { found_of result ≡ inputs.top view (statements self) }
    {
        self.items[..self.count]
            .iter()
            .rev()
            .fold(None, |best, held| greater(*held, view, best))
    }
}
