// No code: proofs/ shows of stores and calls what crates/clocks shows of the rules.
#![tactic(auto)]
