//! One connection of a client, from its first packet to its end: who wants a session is let in and served at a pod, and
//! moved to others where the hub says so; requests to cancel are handed on; the others are told why they get none.
//!
//! Source: PostgreSQL manual, "Message Flow", of the frontend/backend protocol, version 3.0.
#![tactic(auto)]

mod serving;
mod session;
mod why;

pub use session::{Ended, proxy_session};
pub use why::Why;
