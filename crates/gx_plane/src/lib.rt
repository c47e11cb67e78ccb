//! Planes with primitive normals, and the linear algebra under them.
#![tactic(auto)]

mod between;
pub mod laws;
mod plane;
mod raw_plane;
mod senses;
#[cfg(test)]
mod tests;
mod triples;

pub use between::first_triple_between;
pub use plane::{Plane, determinant};
pub use triples::Triples;
