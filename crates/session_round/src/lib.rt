//! One round of a connection: both legs run once, over halves that the connection owns, and the trace so far is a
//! round longer.
//!
//! Nothing here asks the hub or moves a session; that stands above.
#![tactic(auto)]

mod live;

pub use live::{Live, Rounded, round};
