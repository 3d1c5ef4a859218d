//! How long a client waits after logins that failed, by its address and tenant.
//!
//! Each login that was tried is reported, and who fails again and again waits longer: after so many
//! failures in a row, the wait is one second, two, four and so on, an hour at most. A success clears
//! the failures of its address and tenant. Nothing here reads a clock, waits or keeps anyone out; the
//! caller asks before a login, and reports after it.
#![tactic(auto)]

mod allowance;
mod pair;
mod streak;
mod throttle;

pub use allowance::Allowance;
pub use throttle::Throttle;

#[cfg(test)]
mod tests;
