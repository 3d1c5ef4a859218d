//! The shared desk: one machine that many threads call, each at its place in one legal history.
//!
//! A `Desk` holds a machine and the journal of the calls that it took; a `Seat` is one caller.
//! Under it stands a ticket lock: a call waits until no other one is served, draws a ticket, steps the
//! machine and serves the next ticket. A call copies no history. Nothing here says how long a call waits.
#![tactic(auto)]

mod answer;
mod desk;
mod entry;
mod journal;
mod logged;
mod rule;
mod sleepers;
mod ticket_lock;

pub use answer::{CallFault, Closed, Receipt};
pub use desk::{Desk, Seat};
pub use entry::Entry;
pub use journal::Journal;

#[cfg(test)]
mod tests;
