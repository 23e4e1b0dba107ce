// What the script program prints, in words: messages, outgoing fields, answers and what is wrong with a line.
#![tactic(auto)]

pub mod sent;
pub mod show;
