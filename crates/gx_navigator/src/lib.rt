//! The report of a ray in a sealed hierarchy, row after row.
#![tactic(auto)]

pub mod laws;
#[cfg(test)]
mod tests;
mod trace;
mod tracer;

pub use gx_walk::Scratch;
pub use trace::trace_ray;
