//! A pod's settings, read from TOML.
//!
//! A text gives the settings, or the first of its faults, in the order in which its tables are walked. The faults and
//! the walk are those of the proxy's settings. Nothing here opens a file or a socket.
//!
//! Source: TOML v1.1.0.
#![tactic(auto)]

mod place;
mod read;
mod settings;
mod user;

pub use read::read_pod_settings;
pub use settings::{PodFile, Spots};

#[cfg(test)]
mod tests;
