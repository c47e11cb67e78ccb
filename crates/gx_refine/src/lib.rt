//! Building headers: the members of a mother cut apart along axes.
#![tactic(auto)]

mod best;
mod grid;
mod near;
mod runs;
#[cfg(test)]
mod tests;
mod tree;

pub use tree::build;
