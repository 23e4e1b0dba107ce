// Document 01 as definitions, in specs/, with the bench that holds them to it. What is proved of them is in the crate laws. No code.
#![tactic(auto)]
