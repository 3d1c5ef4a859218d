//! Whether a session may be moved, by what was counted of its two directions.
//!
//! Nothing here sees a message: the counts of the processors are all that it takes. What they say of the
//! whole lists of messages is in the contract.
#![tactic(auto)]

mod safe;

pub use processor_core::{RequestTally, ResponseTally};
pub use safe::is_safe;

#[cfg(test)]
mod tests;
