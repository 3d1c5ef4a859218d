//! What a client came for, and the end of a call for one that gets no session: a request to cancel is handed on, and
//! who asks for what can't be had is told why.
//!
//! Source: PostgreSQL manual, "Message Flow", Start-up and Canceling Requests in Progress.
#![tactic(auto)]

mod entry;
mod telling;

pub use entry::{Received, receive};
pub use telling::tell;
