//! An attempt to move a running session to another pod, and what it leaves.
//!
//! A transfer is run over the session's link; where it moves the session the old link is hung up, and the new one is
//! the session's. The hub isn't asked here.
#![tactic(auto)]

mod laws;
mod moving;

pub use laws::attempts_go_on;
pub use moving::{Attempted, Tried, try_move};
