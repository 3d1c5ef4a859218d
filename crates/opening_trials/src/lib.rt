//! Connections up to the end of their openings, over links in memory and a hub at a desk: tests alone.
//!
//! They stand in a crate of their own, so that no change of a test proves the calls again.
#![tactic(auto)]

#[cfg(test)]
mod ends;
#[cfg(test)]
mod visit;
