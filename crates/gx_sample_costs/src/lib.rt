//! What the rays of the second sample cost.
#![tactic(auto)]

pub mod laws;
