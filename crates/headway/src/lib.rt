// Request 12 of the calls: crates/progress's theorem, of stores and the bytes that calls write. No code.
#![tactic(auto)]
