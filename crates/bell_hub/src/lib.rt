//! A connection's way to the hub, which keeps its bell where it can be rung.
//!
//! A `BellHub` passes all that a connection asks on to its own port. From the admission to the release the
//! connection's bell stands in a table that all connections share, under the session's number. A `BellRinger` rings
//! by that table. What stands in the table while others may use it, and whether a ring is heard, no contract says.
#![tactic(auto)]

mod bells;
mod hub;
mod ringer;
mod table;

pub use bells::Bells;
pub use hub::BellHub;
pub use ringer::BellRinger;

#[cfg(test)]
mod tests;
