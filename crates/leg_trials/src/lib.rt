//! Legs over sources, sinks and boards in memory, and over the real board: tests alone.
//!
//! They stand in a crate of their own, so that no change of a test or of a fake proves the legs again.
#![tactic(auto)]

#[cfg(test)]
mod boards;
#[cfg(test)]
mod requests;
#[cfg(test)]
mod responses;
#[cfg(test)]
mod threads;
