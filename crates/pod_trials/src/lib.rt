//! Links to sessions in memory, and a transfer between two of them: tests alone.
//!
//! They stand in a crate of their own, so that no change of a test proves the dialer again.
#![tactic(auto)]

#[cfg(test)]
mod moves;
#[cfg(test)]
mod talk;
