//! The exact partition of a ray and its open rows, in definitions and proofs: how both come of what is met in turn.
#![tactic(auto)]

pub mod laws;
