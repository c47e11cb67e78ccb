//! What one line of a text declares, or the line's first fault.
#![tactic(auto)]

mod declaration;
mod fault;
mod line;
mod param;
mod placements;
mod ray;
mod solids;
mod tag;
#[cfg(test)]
mod tests;
mod turns;
mod words;

pub use declaration::{Declaration, Form};
pub use line::decl;
