//! Writing all of some bytes, and reading just so many, over any sink and any source.
//!
//! What was written and read is said as one step, whatever the pieces in which it went. Nothing here takes
//! memory.
#![tactic(auto)]

mod read;
mod write;

pub use read::{ReadCut, read_exact};
pub use write::{write_all, write_message};

#[cfg(test)]
mod tests;
