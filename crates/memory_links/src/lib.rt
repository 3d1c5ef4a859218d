//! Links, boards, moments and words in memory, for tests.
//!
//! What they give is written down before, or hangs on what the other side did. A fake that finds no memory
//! fails, and its faults rise. Nothing here opens a socket; a meeting looks a bounded number of times.
#![tactic(auto)]

mod count_board;
mod counts;
mod gates;
mod ledger;
mod list;
mod meets;
mod script_board;
mod script_dialer;
mod script_link;

pub use count_board::{CountBack, CountBoard, CountFront};
pub use gates::{GatedPiece, GatedSource, WatchedSink, gated};
pub use ledger::Ledger;
pub use list::{ListClock, ListWords};
pub use meets::{MeetSink, MeetSource, meeting};
pub use script_board::{ScriptBack, ScriptBoard, ScriptFront};
pub use script_dialer::{HungUp, ScriptDial, ScriptDialer, ScriptLink};
pub use script_link::{ScriptSink, ScriptSource};

#[cfg(test)]
mod tests;
