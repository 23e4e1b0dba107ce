// Messages into an out buffer, a writer for each kind. It answers the place after what it wrote; a caller shows that there is room for it.
#![tactic(auto)]

ghost use Rattle.std.specs.Prelude.{true, false, ◌≡◌, ◌+◌, ◌^◌, ◌<◌, ◌≤◌, length};
ghost use Rattle.std.proofs.Math.Option.{none};
ghost use Rattle.fields.specs.Names.{name_of};
ghost use Rattle.rules.specs.Messages.{write, vote, blame, blame_set, status};
ghost use Rattle.rules.specs.Words.{message};
ghost use Rattle.wire.specs.Meaning.{statement_of};
ghost use Rattle.outgoing.specs.Wrote.{Says};

use fields::Name;
use wire::Statement;

// Kind 1, new-view.
pub fn new_view_out(out: &mut [u8], at: usize, x: Statement) -> usize
    requires { (x.is_new_view ≡ true) × (name_of x.link < 256 ^ 4) × (at + 69 ≤ length out.old) }
    ensures { Says out.old at (write (message (statement_of x none))) out.new result }
{
    let name = x.name;
    let link = x.link;
    let six = outgoing::block(out, at, 1, x.view, x.height, name);
    let seven = outgoing::number_field(out, six, 6, 4, link.fourth);
    outgoing::ending(out, seven, x.mask, x.author)
}

// Kind 2, propose.
pub fn propose_out(out: &mut [u8], at: usize, x: Statement) -> usize
    requires { (x.is_new_view ≡ false) × (at + 97 ≤ length out.old) }
    ensures { Says out.old at (write (message (statement_of x none))) out.new result }
{
    let name = x.name;
    let link = x.link;
    let five = outgoing::block(out, at, 2, x.view, x.height, name);
    let seven = outgoing::name_field(out, five, 5, link);
    outgoing::ending(out, seven, x.mask, x.author)
}

// Kind 3, vote.
pub fn vote_out(out: &mut [u8], at: usize, view: u32, height: u32, name: Name, author: u8) -> usize
    requires { at + 57 ≤ length out.old }
    ensures { Says out.old at (write (vote view height (name_of name) author)) out.new result }
{
    let eight = outgoing::block(out, at, 3, view, height, name);
    outgoing::number_field(out, eight, 8, 1, author as u64)
}

// Kind 4, blame.
pub fn blame_out(out: &mut [u8], at: usize, view: u32, author: u8) -> usize
    requires { at + 15 ≤ length out.old }
    ensures { Says out.old at (write (blame view author)) out.new result }
{
    outgoing::short(out, at, 4, view, 8, 1, author as u64)
}

// Kind 5, blame set.
pub fn blame_set_out(out: &mut [u8], at: usize, view: u32, mask: u16) -> usize
    requires { at + 16 ≤ length out.old }
    ensures { Says out.old at (write (blame_set view mask)) out.new result }
{
    outgoing::short(out, at, 5, view, 7, 2, mask as u64)
}

// Kind 6, status.
pub fn status_out(out: &mut [u8], at: usize, height: u32, name: Name, cert: u32, mask: u16) -> usize
    requires { at + 58 ≤ length out.old }
    ensures { Says out.old at (write (status height (name_of name) cert mask)) out.new result }
{
    let three = outgoing::number_field(out, at, 1, 1, 6);
    let four = outgoing::number_field(out, three, 3, 4, height as u64);
    let six = outgoing::name_field(out, four, 4, name);
    let seven = outgoing::number_field(out, six, 6, 4, cert as u64);
    outgoing::number_field(out, seven, 7, 2, mask as u64)
}
