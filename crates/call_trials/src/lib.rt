//! Whole connections over links in memory and hubs of their own: tests alone.
//!
//! They stand in a crate of their own, so that no change of a test proves the calls again.
#![tactic(auto)]

#[cfg(test)]
mod cancels;
#[cfg(test)]
mod desks;
#[cfg(test)]
mod ends;
#[cfg(test)]
mod exchanges;
#[cfg(test)]
mod hubs;
#[cfg(test)]
mod moves;
#[cfg(test)]
mod pods;
#[cfg(test)]
mod served;
#[cfg(test)]
mod tallies;
#[cfg(test)]
mod texts;
#[cfg(test)]
mod threads;
#[cfg(test)]
mod told;
