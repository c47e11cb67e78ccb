//! Bytes in and out: the traits of a source and a sink, those in memory and over std, a buffer, and what writes them whole.
#![tactic(auto)]

mod buffer;
mod buffered_sink;
mod calls;
mod error;
mod fault;
mod lent;
mod mem_sink;
mod mem_source;
mod sink;
mod source;
mod std_sink;
mod std_source;
#[cfg(test)]
mod tests;
mod writing;

pub use buffer::{Buffer, PIECE};
pub use buffered_sink::BufferedSink;
pub use error::IoError;
pub use fault::Failed;
pub use lent::{Lent, Loan};
pub use mem_sink::MemSink;
pub use mem_source::MemSource;
pub use sink::Sink;
pub use source::Source;
pub use std_sink::StdSink;
pub use std_source::StdSource;
pub use writing::write_all;
