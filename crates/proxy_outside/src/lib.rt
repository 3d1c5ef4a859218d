//! What lies outside the proxy, as traits: sources and sinks of bytes, and sequential objects.
//!
//! Each trait tells what its object holds where it can, and counts that never fall. Each has an
//! implementation in memory; a reader and a writer of std make a source and a sink. Nothing here opens
//! a socket or waits.
#![tactic(auto)]

mod addr;
mod identity;
mod machine;
mod mem_sink;
mod mem_source;
mod place;
mod reader_source;
mod sink;
mod source;
mod writer_sink;

pub use addr::Addr;
pub use identity::{ClientKey, PodNo, SessionNo, TenantId};
pub use machine::Machine;
pub use mem_sink::MemSink;
pub use mem_source::MemSource;
pub use place::Place;
pub use reader_source::ReaderSource;
pub use sink::{Gave, Sink};
pub use source::{Source, Took};
pub use writer_sink::WriterSink;

#[cfg(test)]
mod tests;
