//! A list of different numbers, which are offered any number of times.
#![tactic(auto)]

mod offers;
#[cfg(test)]
mod tests;

pub use offers::Offers;
