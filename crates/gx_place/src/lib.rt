//! Points and planes of a daughter in her mother's frame, and that the solid is placed with them.
#![tactic(auto)]

pub mod laws;
mod place;
#[cfg(test)]
mod tests;

pub use place::{place_plane, place_point};
