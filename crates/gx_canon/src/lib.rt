//! The canonical text of a hierarchy and its rays, in definitions and proofs: its lines read back.
#![tactic(auto)]

pub mod laws;
