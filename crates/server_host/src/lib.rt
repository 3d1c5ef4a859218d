//! What the servers of this project need of the system alike: what they ask of it, a console to which one thread writes
//! at a time, listening, and a count of the connections that have begun and ended.
//!
//! No contract says what the system does, or that a wait ends.
#![tactic(auto)]

mod console;
mod ends;
mod host;
mod listening;

pub use console::{Console, moment};
pub use ends::Ends;
pub use host::Host;
pub use listening::listen;

#[cfg(test)]
mod tests;
