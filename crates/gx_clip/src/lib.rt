//! Where a ray is inside a solid that is bounded by planes.
#![tactic(auto)]

mod clipping;
mod interval;
mod parameter;
mod span;
#[cfg(test)]
mod tests;

pub use clipping::clip;
pub use span::Span;
