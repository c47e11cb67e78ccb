//! A clean hierarchy along a ray, in definitions and proofs: what the ray meets gives its partition and its report.
#![tactic(auto)]

pub mod laws;
