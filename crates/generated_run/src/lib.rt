//! Schedules that are made from a number, over the session that counts its queries: long, with pieces of all
//! sizes, and with moves that come to their end or fail.
//!
//! A schedule is made a message at a time, and never held whole. Who plays it is the caller's.
#![tactic(auto)]

mod messages;
mod moving;
mod repeated;
mod sending;
mod turns;
mod words;

pub use turns::{first_events, turn};
pub use words::Words;

#[cfg(test)]
mod tests;
