//! What the lines of a text declare together, or its first fault at a line.
#![tactic(auto)]

mod fault;
mod gathered;
mod item;
mod rays;
mod table;
#[cfg(test)]
mod tests;

pub use fault::{ReadError, TextFault, text_fault};
pub use gathered::{Gathered, MAX_PLACEMENTS, MAX_VOLUMES, Parts};
pub use item::{Item, Shape};
pub use rays::Rays;
pub use table::Table;
