//! Rays in the frames of daughters, in definitions and proofs.
#![tactic(auto)]

pub mod laws;
