// Request 12: that a view with a sound leader gets on, in specs/ and proofs/. No code.
#![tactic(auto)]
