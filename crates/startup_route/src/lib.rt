//! Where a client wants to go: its first packets, read byte by byte, and the cluster that they name.
//!
//! A client may ask for encryption first, which is answered `N`, and then sends a startup packet or
//! a request to cancel. The startup packet names its user, its database and its options; one of these
//! names the cluster, whose number is the tenant. A `Door` says how many bytes it wants, so that no byte
//! behind the startup packet is read, and refuses a packet at the byte that shows its fault. Nothing
//! here reads a socket or writes one, and no password is seen.
//!
//! Source: PostgreSQL manual, "Message Flow", Start-up, SSL Session Encryption and Canceling Requests
//! in Progress, and "Message Formats", of the frontend/backend protocol, version 3.0. How a cluster is
//! named is this project's own.
#![tactic(auto)]

mod cluster;
mod door;
mod fault;
mod header;
mod laws;
mod packet;
mod packet_fault;
mod rejection;
mod route;
mod step;
mod tenant;

pub use door::Door;
pub use fault::DoorFault;
pub use laws::{each_wanted_byte_is_needed, nothing_behind_it_counts, numbers_stand_last};
pub use rejection::Rejection;
pub use step::{DoorStep, Route};

#[cfg(test)]
mod tests;
