//! What all lines of a text declare: its hierarchy and rays, or the first fault that isn't one line's.
#![tactic(auto)]

mod build;
mod crowd;
mod input;
mod known;
mod link;
#[cfg(test)]
mod tests;
mod tree;

pub use input::{Input, input_from};
