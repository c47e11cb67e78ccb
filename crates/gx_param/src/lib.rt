//! Copies in a row, or in rows of a plane, at given steps.
#![tactic(auto)]

mod param;
#[cfg(test)]
mod tests;

pub use param::{linear_at, reaches, square_at};
