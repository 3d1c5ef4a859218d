//! A session's greeting: what a pod says up to its first ReadyForQuery is passed on to the client, with the client's
//! own key in place of the pod's, and what the client answers of its login is sent on.
//!
//! No password is looked at, and nothing is judged but the order of the messages. The startup packet was sent before.
//!
//! Source: PostgreSQL manual, "Message Flow", Start-up, and "Message Formats", of the frontend/backend protocol,
//! version 3.0.
#![tactic(auto)]

mod greeting;
mod login;
mod meaning;
mod passing;

pub use greeting::{Limits, greet};
pub use login::Greeted;
