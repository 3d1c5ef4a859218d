//! The portals of a mini session: statements with the texts of their parameters, under names.
//!
//! A portal is found by its name in constant time. Nothing here runs a statement.
//!
//! Source: PostgreSQL manual, "Message Flow", Extended Query.
#![tactic(auto)]

mod portals;

pub use portals::{BoundStmt, Portals};

#[cfg(test)]
mod tests;
