//! A port to a hub of its own, which others change at moments that are written down before. For tests.
//!
//! Nothing here waits or shares: the commands of others are stepped by the port itself, right before its ask
//! of the number at which they are listed.
#![tactic(auto)]

mod port;
mod step;
mod stepped;

pub use port::{StagedCommand, StagedHub};
pub use step::Step;
pub use stepped::SteppedHub;
