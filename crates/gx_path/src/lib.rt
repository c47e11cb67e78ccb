//! Paths of volumes, the rows of a ray's report, and what takes them.
#![tactic(auto)]

pub mod laws;
mod mem_rows;
mod path;
mod row;
mod rows;
#[cfg(test)]
mod tests;

pub use mem_rows::MemRows;
pub use path::Path;
pub use row::Row;
pub use rows::Rows;
