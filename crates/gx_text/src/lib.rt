//! The lines and words of a text, and names.
#![tactic(auto)]

mod fault;
pub mod laws;
mod line;
mod lines;
mod name;
mod partial_line;
#[cfg(test)]
mod tests;
mod words;

pub use line::Line;
pub use lines::{LineError, LineFault, Lines};
pub use name::{Name, is_name};
