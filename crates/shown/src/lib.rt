// What a slip shows, in proofs/: theorems on the checker and the writer. No code.
#![tactic(auto)]
