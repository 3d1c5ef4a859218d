//! The course of a connection whose session is ready: its rounds on one link, an attempt to move it where the hub named a
//! place, and on, until a leg ends by itself or the old link fails in an attempt.
//!
//! The link is hung up, and the session released, above.
#![tactic(auto)]

mod booking;
mod counts;
mod course;

pub use booking::release;
pub use counts::Counts;
pub use course::{Done, Finish, run_course};
