//! Tables of texts, and the names of faults.
#![tactic(auto)]

mod fault;
mod table;
#[cfg(test)]
mod tests;

pub use fault::{FaultName, fault_text};
pub use table::{Entry, find};
