//! Going along a ray through the runs of a header.
#![tactic(auto)]

pub mod laws;
mod line;
mod runs;
mod search;
#[cfg(test)]
mod tests;

pub use line::{Bounds, Line, Stretch, Time, is_entered, is_left, part};
pub use runs::{index_of, left_of};
pub use search::first_left;
