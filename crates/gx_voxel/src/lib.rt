//! Voxel headers: which members stand in which part of space, and what makes cells of them.
#![tactic(auto)]

pub mod laws;
mod members;
mod proxy;

pub use members::Members;
pub use proxy::{Header, Proxy, Run};
