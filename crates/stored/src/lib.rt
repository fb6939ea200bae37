// Stored answers of orion-sdr, as the program replay reads them.
#![tactic(auto)]

pub mod inner;
