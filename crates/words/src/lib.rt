// Words of 01 over values: when statements are the same and when they conflict, the certificate that one carries, its own block, rank.
#![tactic(auto)]

ghost use Rattle.std.specs.Prelude.{◌≡◌};
ghost use Rattle.std.proofs.Math.Option.{none};
ghost use Rattle.rules.specs.Words as words;
ghost use Rattle.rules.specs.Words.{same_statement, conflict};
ghost use Rattle.wire.specs.Meaning.{statement_of};
ghost use Rattle.words.specs.Meaning.{block_of, Certifies, ranks_below};

use fields::Name;
use wire::Statement;

// A block of a view, with the mask of its voters: what a statement, a vote or a status carries, the lock, and the key of a search.
#[derive(Clone, Copy)]
pub struct Certificate {
    pub view: u32,
    pub height: u32,
    pub name: Name,
    pub mask: u16,
}

impl Certificate {
    // Genesis, as every station starts with it.
    pub fn genesis() -> Certificate
        ensures { block_of result ≡ words.genesis }
    {
        let name = Name::zero();
        Certificate {
            view: 0,
            height: 0,
            name,
            mask: 0,
        }
    }
}

// Whether two statements are the same: all but the mask agree.
pub fn same(x: Statement, y: Statement) -> bool
    ensures { result ≡ same_statement (statement_of x none) (statement_of y none) }
{
    let name = x.name == y.name;
    let link = x.link == y.link;
    (x.is_new_view == y.is_new_view)
        & (x.view == y.view)
        & (x.height == y.height)
        & name
        & link
        & (x.author == y.author)
}

// What a statement has against another of its view: at one height, one above the other, or as a new-view.
fn against(x: Statement, y: Statement) -> bool
    ensures { result ≡ words.against (statement_of x none) (statement_of y none) }
{
    if x.is_new_view {
        return y.is_new_view | (y.height <= x.height);
    }
    if x.height == y.height {
        return !y.is_new_view & (x.name != y.name);
    }
    let above = (x.height as u64) == (y.height as u64) + 1;
    above & (x.link != y.name)
}

// Whether two statements conflict.
pub fn conflicts(x: Statement, y: Statement) -> bool
    ensures { result ≡ conflict (statement_of x none) (statement_of y none) }
{
    if x.view != y.view {
        return false;
    }
    if x.is_new_view & y.is_new_view {
        return !same(x, y);
    }
    against(x, y) | against(y, x)
}

// The certificate that a statement carries.
pub fn certificate_of(x: Statement) -> Certificate
    requires { Certifies (statement_of x none) }
    ensures { block_of result ≡ words.certificate (statement_of x none) }
{
    if x.is_new_view {
        let name = x.name;
        return Certificate {
            view: x.link.fourth as u32,
            height: x.height,
            name,
            mask: x.mask,
        };
    }
    let name = x.link;
    Certificate {
        view: x.view,
        height: x.height - 1,
        name,
        mask: x.mask,
    }
}

// A statement's own block in its view, with a mask.
pub fn own_block(x: Statement, mask: u16) -> Certificate
    ensures { block_of result ≡ words.own_block (statement_of x none) mask }
{
    let name = x.name;
    Certificate {
        view: x.view,
        height: x.height,
        name,
        mask,
    }
}

// Whether one certificate ranks below another: by view, then by height.
pub fn below(a: Certificate, b: Certificate) -> bool
    ensures { result ≡ words.below (block_of a) (block_of b) }
{
    if a.view != b.view {
        return a.view < b.view;
    }
    a.height < b.height
}

// Whether one certificate is higher than another: by rank, then by the smaller name.
pub fn higher(a: Certificate, b: Certificate) -> bool
    ensures { result ≡ words.higher (block_of a) (block_of b) }
{
    if a.view != b.view {
        return b.view < a.view;
    }
    if a.height != b.height {
        return b.height < a.height;
    }
    a.name < b.name
}

// Whether a statement is a new-view whose certificate ranks below the lock.
pub fn below_lock(x: Statement, lock: Certificate) -> bool
    requires { Certifies (statement_of x none) }
    ensures { result ≡ ranks_below (statement_of x none) (block_of lock) }
{
    if x.is_new_view {
        return below(certificate_of(x), lock);
    }
    false
}
