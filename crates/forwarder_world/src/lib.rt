//! The forwarder of one session over links that a transfer changes: its definition over any schedule,
//! and what holds of every schedule.
//!
//! Definitions and laws alone, by fixed lists and positions. The code that meets them stands elsewhere.
#![tactic(auto)]

mod counts;
mod event;
mod laws;

pub use counts::Counts;
pub use event::{Close, Event, Phase};
pub use laws::{headline, startups, turns};
