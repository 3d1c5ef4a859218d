//! What one connection asks of the hub and dials, beside its trace.
//!
//! A call asks in an order: to be admitted, for a key, for a pod, that its place be kept, what came of the login, between
//! its rounds where the session is to move, and at its end that it be released. Here is which lists of asks and dials
//! fit a trace. Definitions and laws alone: the code that asks stands elsewhere.
#![tactic(auto)]

mod laws;

pub use laws::{asks_go_on, attempts_are_named, dials_are_named, only_the_admitted_are_dialed};
