//! Sample texts are clean, in definitions and proofs: what a sample's text declares, for each of them.
#![tactic(auto)]

pub mod laws;
