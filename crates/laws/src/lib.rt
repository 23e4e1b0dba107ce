// What is proved of document 01's definitions alone: the laws that every crate above cites. No code.
#![tactic(auto)]
