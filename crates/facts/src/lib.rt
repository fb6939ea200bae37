// Document 01's small facts: a crate of definitions and a theorem, with no code.
#![tactic(auto)]
