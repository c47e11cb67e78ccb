//! The hierarchy of volumes.
#![tactic(auto)]

mod chains;
mod ends;
mod fault;
mod hierarchy;
mod instance;
mod judge;
pub mod laws;
mod limits;
mod placement;
mod replicas;
#[cfg(test)]
mod tests;
mod volume;

pub use fault::{TreeError, TreeFault};
pub use hierarchy::Hierarchy;
pub use instance::Instance;
pub use limits::are_within_limits;
pub use placement::Placement;
pub use volume::Volume;
