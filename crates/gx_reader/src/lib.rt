//! What a text declares that comes in pieces: a hierarchy and rays, or its first fault.
#![tactic(auto)]

mod line_reader;
mod reader;
#[cfg(test)]
mod tests;

pub use reader::{MAX_TEXT, Reader};
