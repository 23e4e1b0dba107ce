// 01's words over values, for the plain engine, each straight from its definition: when statements are the same and when they
// conflict, the certificate that one carries, its own block, rank.
#![tactic(auto)]

ghost use Rattle.std.specs.Prelude.{◌≡◌};
ghost use Rattle.std.proofs.Math.Option.{none};
ghost use Rattle.rules.specs.Words as words;
ghost use Rattle.wire.specs.Meaning.{statement_of};
ghost use Rattle.plain_words.specs.Meaning.{certificate_of, Certifies};

use fields::Name;
use wire::Statement;

// A block of a view, with voters: what a statement, a vote or a status carries, and the lock.
#[derive(Clone, Copy)]
pub struct Certificate {
    pub view: u32,
    pub height: u32,
    pub name: Name,
    pub mask: u16,
}

// Genesis.
pub fn genesis() -> Certificate
    ensures { certificate_of result ≡ words.genesis }
{
    Certificate {
        view: 0,
        height: 0,
        name: Name::zero(),
        mask: 0,
    }
}

// "Two are the same when all but the mask agree".
pub fn same_statement(x: Statement, y: Statement) -> bool
    ensures { result ≡ words.same_statement (statement_of x none) (statement_of y none) }
{
    (x.is_new_view == y.is_new_view)
        & (x.view == y.view)
        & (x.height == y.height)
        & (x.name == y.name)
        & (x.link == y.link)
        & (x.author == y.author)
}

// What a statement has against another of its view.
fn against(x: Statement, y: Statement) -> bool
    ensures { result ≡ words.against (statement_of x none) (statement_of y none) }
{
    if x.is_new_view {
        return y.is_new_view | (y.height <= x.height);
    }
    let next = u64::from(x.height) == u64::from(y.height) + 1;
    (!y.is_new_view & (x.height == y.height) & (x.name != y.name)) | (next & (x.link != y.name))
}

// "Two different statements of one view conflict when" either has something against the other.
pub fn conflict(x: Statement, y: Statement) -> bool
    ensures { result ≡ words.conflict (statement_of x none) (statement_of y none) }
{
    !same_statement(x, y) & (x.view == y.view) & (against(x, y) | against(y, x))
}

// A statement's own block in its view, with a mask.
pub fn own_block(x: Statement, mask: u16) -> Certificate
    ensures { certificate_of result ≡ words.own_block (statement_of x none) mask }
{
    Certificate {
        view: x.view,
        height: x.height,
        name: x.name,
        mask,
    }
}

// A statement's certificate.
pub fn certificate_of(x: Statement) -> Certificate
    requires { Certifies (statement_of x none) }
    ensures { certificate_of result ≡ words.certificate (statement_of x none) }
{
    if x.is_new_view {
        return Certificate {
            view: x.link.fourth as u32,
            height: x.height,
            name: x.name,
            mask: x.mask,
        };
    }
    Certificate {
        view: x.view,
        height: x.height - 1,
        name: x.link,
        mask: x.mask,
    }
}

// Whether two are of one block.
pub fn same_block(t: Certificate, u: Certificate) -> bool
    ensures { result ≡ words.same_block (certificate_of t) (certificate_of u) }
{
    (t.view == u.view) & (t.height == u.height) & (t.name == u.name)
}

// "Rank is view, then height".
pub fn below(t: Certificate, u: Certificate) -> bool
    ensures { result ≡ words.below (certificate_of t) (certificate_of u) }
{
    (t.view, t.height) < (u.view, u.height)
}

// "'Highest' breaks ties by the smaller name in byte order".
pub fn higher(t: Certificate, u: Certificate) -> bool
    ensures { result ≡ words.higher (certificate_of t) (certificate_of u) }
{
    below(u, t) | (!below(t, u) & (t.name < u.name))
}
