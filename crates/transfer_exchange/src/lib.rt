//! A transfer as a machine over frames: what is to be sent, what is accepted, and what it came to.
//!
//! The machine says what it wants next, and is told what happened: a text was sent, a pod was dialed, a
//! frame came, a link was cut. It holds no link and reads no bytes but those of frames.
//!
//! Source: PostgreSQL manual, "Message Formats" of the frontend/backend protocol, version 3.0. The texts
//! of a transfer are this project's own.
#![tactic(auto)]

mod columns;
mod exchange;
mod messages;
mod new_pod;
mod old_pod;
mod rows;
mod said;
mod stages;
mod texts;

pub use exchange::Exchange;

#[cfg(test)]
mod tests;
