//! Replicas: equal cells that fill a mother along one axis.
#![tactic(auto)]

mod replica;
#[cfg(test)]
mod tests;

pub use replica::{replica_at, replica_fits};
