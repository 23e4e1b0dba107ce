// A message, and what reading one answers.
#![tactic(auto)]

use fields::Name;

// A new-view or a propose. The link of a propose is its parent's name; of a new-view it is the certificate view, as a name's number.
#[derive(Clone, Copy)]
pub struct Statement {
    pub is_new_view: bool,
    pub view: u32,
    pub height: u32,
    pub name: Name,
    pub link: Name,
    pub mask: u16,
    pub author: u8,
}

// A message. Its fields have the widths of the wire, but for the link of a new-view: a writer asks that it fits 4 bytes.
#[derive(Clone, Copy)]
pub enum Message {
    Stated(Statement),
    Vote {
        view: u32,
        height: u32,
        name: Name,
        author: u8,
    },
    Blame {
        view: u32,
        author: u8,
    },
    BlameSet {
        view: u32,
        mask: u16,
    },
    Status {
        height: u32,
        name: Name,
        cert: u32,
        mask: u16,
    },
}
