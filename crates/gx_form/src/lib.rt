//! How words and values are read from the left: the outcome of a form, and its steps.
#![tactic(auto)]

mod fault;
mod refusal;

pub use fault::Fault;
pub use refusal::Refusal;
