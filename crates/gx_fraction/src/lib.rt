//! Fractions of whole numbers in lowest terms, and their order.
#![tactic(auto)]

mod fraction;
#[cfg(test)]
mod tests;

pub use fraction::Frac;
