// No code: proofs/ shows that nothing but the kept clocks hangs on the clocks that tallies keep, and that each is the first.
#![tactic(auto)]
