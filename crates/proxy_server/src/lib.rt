//! The proxy as a server: it listens, serves each client on a thread of its own, and has sessions moved when its
//! settings change.
//!
//! Each connection is one call of `proxy_session`, over the client's socket, the hub that all share, and its own board,
//! whose bell a drain round can ring. What a thread does when, and that a wait ends, no contract says.
#![tactic(auto)]

mod client;
mod common;
mod drain;
mod front;
mod seated;
mod server;
mod settings;
mod supply;
mod why;

pub use server::serve;
