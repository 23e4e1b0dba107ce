// Demand 3: the schedule, in specs/, and that the logs agree, in proofs/. No code.
#![tactic(auto)]
