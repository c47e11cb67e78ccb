//! The points that two solids have in common.
#![tactic(auto)]

mod candidate;
mod common;
mod distinct;
pub mod laws;
mod offers;
mod points;
mod slots;
mod sum;
#[cfg(test)]
mod tests;
mod vertex;

pub use common::{are_apart, common_points, insides_meet};
pub use points::Points;
