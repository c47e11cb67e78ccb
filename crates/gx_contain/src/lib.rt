//! Whether a solid is in another.
#![tactic(auto)]

pub mod laws;
mod outside;
#[cfg(test)]
mod tests;

pub use outside::first_outside;
