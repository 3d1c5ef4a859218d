//! Which sessions are live, of which tenants, and at which pods they stand.
//!
//! A roster answers who stands at a pod, how many, and which sessions a tenant has, without going over all
//! sessions. It places no session, and knows no addresses.
#![tactic(auto)]

mod counts;
mod member;
mod roster;

pub use roster::Roster;

#[cfg(test)]
mod tests;
