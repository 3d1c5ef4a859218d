//! The forwarder of one session over any schedule, in memory.
//!
//! A World is a client's script, the links to pods with a session at the end of each, and what the
//! client received. One call takes one event. The calls' contracts say which world of the definition a
//! World stands for, and what holds of every schedule. No socket, clock or thread.
#![tactic(auto)]

mod channel;
mod client_side;
mod connection;
mod forwarder;
mod link;
mod new_link;
mod outcome;
mod phases;
mod pod_side;
mod replies;
mod shown;
mod startup;
mod transfer;
mod world;

pub use forwarder_world::{Close, Counts, Event, Phase};
pub use proxy_outside::ClientKey;
pub use world::World;
