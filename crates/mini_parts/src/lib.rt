//! The parts of a mini session, and how a message sees them.
//!
//! A session is kept as its parts: what moves, its token, its portals, its transaction and its mode. A
//! message reads them through a view, which leaves out what the message first does away with, so that
//! nothing is changed before all memory was taken. Nothing here changes a session, or knows a message.
//!
//! Source: PostgreSQL manual, "Message Flow" of the frontend/backend protocol, version 3.0.
#![tactic(auto)]

mod named;
mod parts;
mod view;

pub use parts::{CopyTo, Mode, Parts, Turn};
pub use view::View;

#[cfg(test)]
mod tests;
