//! A transfer over links: the old pod is asked for its session's state, the new one is dialed, and the session
//! is revived there.
//!
//! What is sent and what is accepted, message by message, is `transfer_exchange`'s; here its machine stands
//! between links. Messages are read exactly, so that behind the old pod's reply stands what that pod sends
//! next. The transfer Query takes no memory; where memory runs out behind it, the old pod's reply is read to
//! its end and dropped.
//!
//! Nothing here waits, but for what a source does in a read; no contract speaks of time.
//!
//! Source: PostgreSQL manual, "Message Flow" of the frontend/backend protocol, version 3.0.
#![tactic(auto)]

mod exchange;
mod message;
mod moving;

pub use message::{Heard, read_message};
pub use moving::{Transferred, transfer};
