//! A clean hierarchy, sealed for tracing: where a ray is inside its world and inside each daughter.
#![tactic(auto)]

mod cells;
mod enter;
mod error;
mod placed;
mod sealed;
mod solid;
#[cfg(test)]
mod tests;

pub use cells::Cells;
pub use error::SealError;
pub use sealed::{Sealed, Step};
