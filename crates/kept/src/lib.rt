// No code: proofs/ shows what every call of the rules keeps, says and leaves room for.
#![tactic(auto)]
