//! The round trip of canonical texts, in definitions and proofs: what a text declares, printed and read again.
#![tactic(auto)]

pub mod laws;
