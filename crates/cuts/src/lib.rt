// Power cuts: a disk and what is tried on it, in specs/, and what a replay then finds, in proofs/. No code.
#![tactic(auto)]
