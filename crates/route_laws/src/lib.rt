//! What holds of every route that a door gives: its parameters can be sent on to a pod.
//!
//! A startup packet comes with at most 10,000 bytes and with no reserved name, and the cluster is taken out of its options
//! and its database. What is then left is again a startup packet within its limit, and the proxy can add a revival token
//! whose name isn't there yet. These are laws alone: nothing here runs.
#![tactic(auto)]

mod laws;

pub use laws::routes_can_be_sent;
