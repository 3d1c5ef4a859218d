//! The rounds of a connection on one link: both legs run, again and again, and behind a round that ended where the
//! session may be moved the hub is asked for its target.
//!
//! The session's move, and what becomes of a connection whose legs have ended, stands above.
#![tactic(auto)]

mod due;
mod rounds;
mod target;

pub use due::is_look;
pub use rounds::{Stop, Stopped, run_rounds};
