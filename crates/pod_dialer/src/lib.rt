//! A dialer whose pods are sessions in memory.
//!
//! Each dial begins a session with the parameters of the startup packet that it is sent, and the sessions of one
//! dialer share one store. The two halves of a link share its session behind a lock, so a call may wait for the
//! other half's. For tests; nothing here opens a socket.
//!
//! Source: PostgreSQL manual, "Start-up" of the frontend/backend protocol, version 3.0.
#![tactic(auto)]

mod dialer;
mod halves;
mod pod;

pub use dialer::{PodDialer, PodHungUp};
pub use halves::{PodSink, PodSource};
