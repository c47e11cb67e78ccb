//! Numbers for names, in the order in which the names are first seen.
#![tactic(auto)]

mod fault;
mod name_list;
mod names;
#[cfg(test)]
mod tests;

pub use fault::NameFault;
pub use name_list::NameList;
pub use names::Names;
