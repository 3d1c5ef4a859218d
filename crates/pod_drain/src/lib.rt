//! Which sessions are asked to leave their pods.
//!
//! A round tells the hub new settings, where there are some, and rings each session that a plan of a watched
//! tenant moves. A tenant is watched from an update on until a plan has no moves. What a ring does is the
//! ringer's; nothing here waits but for the hub.
#![tactic(auto)]

mod fault;
mod ringer;
mod round;
mod watch;

pub use fault::DrainFault;
pub use ringer::{ListRinger, Ringer};
pub use round::drain_round;
pub use watch::Watch;

#[cfg(test)]
mod tests;
