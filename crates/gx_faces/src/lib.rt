//! The faces of points that aren't coplanar, found by going over edges from face to face.
#![tactic(auto)]

mod closed;
mod edge;
mod find;
pub mod laws;
mod order;
mod search;
mod turn;

pub use find::faces;
