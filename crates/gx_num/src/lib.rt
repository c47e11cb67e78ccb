//! Whole numbers, vectors, points and rays: the base of all geometry here.
#![tactic(auto)]

mod extent;
mod memory;
mod number;
mod point;
mod ray;
#[cfg(test)]
mod tests;
mod vector;

pub use extent::Extent;
pub use memory::NoMemory;
pub use number::{cmp_products, gcd, sign};
pub use point::Hp;
pub use ray::Ray;
pub use vector::{M, V3};
