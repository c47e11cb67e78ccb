//! The texts that the program writes, each into a sink.
#![tactic(auto)]

mod copy;
pub mod laws;
mod number;
mod print;
mod row;
mod summary;
#[cfg(test)]
mod tests;
mod verdict;

pub use print::{print_fault, print_ray, print_usage};
pub use row::print_row;
pub use summary::{Summary, print_summary};
pub use verdict::{print_counts, print_verdict};
