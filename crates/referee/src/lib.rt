// The plain engine and the working station over one sequence of inputs, in specs/, and that they answer alike, in proofs/. No code.
#![tactic(auto)]
