//! The faults of facets that are to bound a solid.
#![tactic(auto)]

mod edges;
mod facet;
mod faults;
#[cfg(test)]
mod tests;

pub use faults::facets_fault;
