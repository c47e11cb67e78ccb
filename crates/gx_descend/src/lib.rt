//! The descent of a ray through a tree of headers: which members it offers, and what it reads.
#![tactic(auto)]

mod descent;
#[cfg(test)]
mod tests;

pub use descent::descend;
