//! Which pods a tenant has, and at which one a session is at home.
//!
//! Rows come in, each with all pods of a tenant and a version; the row with the greatest version
//! counts, and of those the one that came first. Nothing here watches pods, dials them or chooses one.
#![tactic(auto)]

mod directory;
mod fault;
mod pod;
mod row;
mod twice;

pub use directory::{Applied, Directory};
pub use fault::RowFault;
pub use pod::{Pod, PodState};
pub use row::{MOST_PODS, TenantRow};

#[cfg(test)]
mod tests;
