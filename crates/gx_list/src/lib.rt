//! The canonical text of a hierarchy and its rays, written into a sink.
#![tactic(auto)]

mod figure;
mod list;
mod piece;
mod placement;
#[cfg(test)]
mod tests;
mod texts;
mod turns;
mod volumes;

pub use list::print_list;
