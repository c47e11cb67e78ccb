//! A hierarchy judged: each daughter against her mother, and each pair of daughters, with what shows each verdict.
#![tactic(auto)]

mod check;
mod counts;
mod daughters;
mod error;
mod first;
pub mod laws;
mod selection;
#[cfg(test)]
mod tests;
mod verdict;
mod verdicts;

pub use check::check_tree;
pub use counts::Counts;
pub use error::CheckError;
pub use first::first_refuted;
pub use selection::Selection;
pub use verdict::Verdict;
pub use verdicts::Verdicts;
