//! Convex hulls of points with their faces, and solids: a kind, its values and its hull.
#![tactic(auto)]

mod fault;
mod flat;
mod hull;
mod placed;
mod points;
mod solid;
#[cfg(test)]
mod tests;

pub use fault::HullFault;
pub use hull::Hull;
pub use solid::Solid;
