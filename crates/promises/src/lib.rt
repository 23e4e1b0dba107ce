// Demand 3 carried from the rules to the calls: definitions in specs/, theorems in proofs/. No code.
#![tactic(auto)]
