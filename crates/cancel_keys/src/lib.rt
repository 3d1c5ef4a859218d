//! The keys by which clients cancel, and whose pod's key each stands for.
//!
//! A client is given a key of the proxy in place of its pod's, since its session may move. Who shows
//! that key from the same address finds the pod at which the session is, and the pod's key. Nothing
//! here draws a random word or sends a request.
//!
//! Source: PostgreSQL manual, "Message Flow", Canceling Requests in Progress.
#![tactic(auto)]

mod given;
mod keys;

pub use keys::Keys;

#[cfg(test)]
mod tests;
