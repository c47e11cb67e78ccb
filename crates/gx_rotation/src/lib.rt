//! The 24 rotations that take the axes to axes.
#![tactic(auto)]

mod fault;
mod given;
pub mod laws;
mod rotation;
#[cfg(test)]
mod tests;

pub use fault::RotationFault;
pub use given::{from_angles3, from_angles6, from_matrix9};
pub use rotation::Rotation;
