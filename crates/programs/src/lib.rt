// What the programs share. For the programs alone.
#![tactic(auto)]

pub mod inner;
