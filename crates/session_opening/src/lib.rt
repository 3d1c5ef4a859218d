//! The opening of a connection with a session: a client that wants one is let in, a pod is dialed for it, and the pod's
//! greeting is passed on up to its first ReadyForQuery.
//!
//! Whoever gets no session is told why, where nothing of a greeting was passed on; its link is hung up and its session
//! released. What comes behind the greeting isn't here.
//!
//! Source: PostgreSQL manual, "Message Flow", Start-up, of the frontend/backend protocol, version 3.0.
#![tactic(auto)]

mod booking;
mod ending;
mod greeting;
mod laws;
mod link;
mod opening;
mod packet;
mod telling;

pub use ending::Ending;
pub use laws::{endings_fit, ready_sessions_fit};
pub use opening::{Ended, Opened, Session, open};
pub use packet::packet_fits;
