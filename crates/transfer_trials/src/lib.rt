//! Transfers over links in memory: tests alone.
//!
//! They stand in a crate of their own, so that no change of a test or of a fake proves the transfer again.
#![tactic(auto)]

#[cfg(test)]
mod places;
#[cfg(test)]
mod pods;
#[cfg(test)]
mod trial;
#[cfg(test)]
mod whole;
