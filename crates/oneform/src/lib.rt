// No code: that a store is well formed exactly when it is the bytes of a well-formed state.
#![tactic(auto)]
