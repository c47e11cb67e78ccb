//! The copies of a mother that is filled by copies side by side, offered along a ray.
#![tactic(auto)]

mod row;
mod slabs;
#[cfg(test)]
mod tests;

pub use slabs::offer_copies;
