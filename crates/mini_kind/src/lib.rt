//! What a mini session is, and the laws that it keeps.
//!
//! A mini session answers the simple and the extended query protocol over a store of tables: statements in
//! SQL, prepared statements and portals, transactions, copies into tables, variables, and its own move.
//! Here stand its definition, as a kind of session, and the proof of a session's laws. Nothing here runs.
//!
//! Source: PostgreSQL manual, "Message Flow" and "Message Formats" of the frontend/backend protocol,
//! version 3.0. Which statements there are, the limits and the texts of a transfer are this project's own.
#![tactic(auto)]

mod laws;

pub use laws::a_mini_session_keeps_the_laws;
