//! Planes between two solids.
#![tactic(auto)]

mod boxes;
mod planes;
#[cfg(test)]
mod tests;

pub use planes::plane_between;
