//! Boxes along a ray: which of them it may meet.
#![tactic(auto)]

mod bounds;
mod boxed;
mod part;
mod rejection;
mod slab;
#[cfg(test)]
mod tests;
mod tree;

pub use boxed::Boxed;
pub use rejection::misses;
pub use tree::BoxTree;
