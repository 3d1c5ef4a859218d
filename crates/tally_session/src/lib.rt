//! A session that counts its queries, and can be moved.
//!
//! It answers each Query with the number that it has come to, takes copied data without looking into
//! it, and answers a transfer. Beside it stands its store, of which it asks nothing. It is a session
//! without a database, for tests and replays of the proxy.
//!
//! Source: PostgreSQL manual, "Message Flow" of the frontend/backend protocol, version 3.0, for which
//! messages a copy takes, and "Message Formats". The number and the texts of a transfer are this
//! project's own.
#![tactic(auto)]

mod reading;
mod replies;
mod session;
mod store;

pub use session::TallySession;
pub use store::{Nothing, TallyStore};

#[cfg(test)]
mod tests;
