//! The trace of one connection: what it is that a trace fits a call for a client, and what the client was then given.
//!
//! A trace is the opening of a link and a list of rounds, newest first; in a round both legs run once, and an exchange
//! that moves the session may follow. Definitions and laws alone: the code that keeps a trace stands elsewhere.
#![tactic(auto)]

mod laws;

pub use laws::{a_trace_goes_on, headline};
