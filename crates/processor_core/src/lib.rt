//! A connection's two directions, each as a stream that is cut into messages and counted.
//!
//! Bytes are fed in whatever pieces, and messages are handed out: each as a value of its own, or lent first and
//! then dropped, which takes no memory. A processor may be suspended: it then
//! hands nothing out, and loses nothing. What was handed out is counted over the whole session, through
//! all its moves; from these counts follows whether the session may be moved. The texts of a move pass
//! no processor.
//!
//! Source: PostgreSQL manual, "Message Flow" of the frontend/backend protocol, version 3.0.
#![tactic(auto)]

mod intake;
mod request;
mod response;
mod step;
mod stream;
mod tally;

pub use request::Request;
pub use response::Response;
pub use step::{Peek, Step};
pub use tally::{RequestTally, ResponseTally};

#[cfg(test)]
mod tests;
