//! The board of a running connection, over atomics: its two legs look at it, and whoever drains a pod rings
//! its bell.
//!
//! No contract says when a board tells what; the tests do. Nothing here waits, and nothing that takes memory
//! follows the making of a board.
#![tactic(auto)]

mod board;
mod counts;

pub use board::{AtomicBack, AtomicBoard, AtomicFront, Bell};

#[cfg(test)]
mod tests;
