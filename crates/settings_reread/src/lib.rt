//! Settings that are read again while a program runs.
//!
//! A text that is as it was read last time says nothing new. Another one gives settings, or the first of its faults; who
//! asks goes on with the old settings then. What a stream is, is the caller's.
#![tactic(auto)]

mod last_text;

pub use last_text::{LastText, Reread};

#[cfg(test)]
mod tests;
