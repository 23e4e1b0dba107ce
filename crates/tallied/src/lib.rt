// The tallies of a lent store, each allowed for its settings, and the block that a record begins with.
#![tactic(auto)]

pub mod block;
pub mod good;
