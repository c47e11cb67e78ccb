//! The walk of a ray through volumes within volumes, which gives the rows of its report one after another.
#![tactic(auto)]

mod collect;
mod emit;
mod geometry;
mod met;
mod scratch;
#[cfg(test)]
mod tests;
mod walk;

pub use geometry::Geometry;
pub use met::{Frame, Met};
pub use scratch::Scratch;
pub use walk::walk_world;
