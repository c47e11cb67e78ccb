//! Solids: reading the values of each kind, the solid that they make, and the first fault of values that make none.
#![tactic(auto)]

pub mod laws;
mod make;
mod numbers;
mod read;
mod sections;
#[cfg(test)]
mod tests;
mod values;
mod vertices;
mod whole;

pub use make::{seal, solid, word_fault};
pub use read::{read_figure, read_values};
pub use values::Values;
