//! A pod's connection: a client is let in by password or by token, and its messages are told to a session.
//!
//! The kind of session and its store are the caller's; the store is asked through a port, since other connections share it.
//! What is written for the bytes that were taken is a definition, and so is where the connection then stands. A reply is
//! written message by message, and nothing of it is kept.
//!
//! Left out: encryption, which is answered `N`; cancelling, which has no effect, since a message is handled whole; and
//! every kind of login but a cleartext password.
//!
//! Source: PostgreSQL manual, "Message Flow", Start-up, and "Message Formats", of the frontend/backend protocol, version
//! 3.0. The parameters for tokens are this project's own.
#![tactic(auto)]

mod conn;
mod desk_store;
mod end;
mod entrance;
mod fatal;
mod guest;
mod laws;
mod login;
mod packet;
mod params;
mod port;
mod serving;
mod settings;
mod wire;

pub use conn::{Served, serve_conn};
pub use desk_store::DeskStore;
pub use end::PodEnd;
pub use laws::replies_only_grow;
pub use port::StorePort;
pub use settings::{PodSettings, User, Users};

#[cfg(test)]
mod tests;
