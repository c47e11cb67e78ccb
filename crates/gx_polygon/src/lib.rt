//! Convex polygons: what makes one, its tests, and proofs that its edges bound it.
#![tactic(auto)]

mod edges;
mod polygon;
#[cfg(test)]
mod tests;

pub use polygon::{is_convex, is_straight};
