//! Sample texts: a world with n by n cells, each with a core in it, and three rays.
#![tactic(auto)]

mod sample;
#[cfg(test)]
mod tests;

pub use sample::sample_text;
