//! A request to cancel: the hub is asked what its key stands for, and the request goes on to that pod with the pod's own key.
//!
//! The link is hung up whatever comes of it, and the client is told nothing, as the manual has it.
//!
//! Source: PostgreSQL manual, "Message Flow", Canceling Requests in Progress; "Message Formats", CancelRequest.
#![tactic(auto)]

mod request;

pub use request::cancel;
