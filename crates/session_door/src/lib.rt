//! The door of a connection: the first packets of a client are read to the byte, and requests for encryption refused.
//!
//! What the packets ask for is `startup_route`'s; here its door stands between a source and a sink. Not a byte behind
//! the startup packet is read. A client that doesn't speak is left once its source was idle often enough; no contract
//! speaks of time.
//!
//! Source: PostgreSQL manual, "Message Flow", Start-up, SSL Session Encryption and Canceling Requests in Progress.
#![tactic(auto)]

mod door;

pub use door::{DoorCut, Entry, enter};

#[cfg(test)]
mod tests;
