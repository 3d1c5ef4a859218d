//! Frames of the protocol after startup: a type byte, a length that counts itself, and a body.
//!
//! Bytes come in, in whatever pieces, and frames go out, both ways. Nothing here reads a socket or
//! waits, and nothing looks into a body. The startup packet, which has no type byte, is none of these
//! frames.
//!
//! Source: PostgreSQL manual, "Message Formats" of the frontend/backend protocol, version 3.0.
#![tactic(auto)]

mod bytes;
mod cutter;
mod frame;
mod head;
mod laws;
mod memory;
mod queue;
mod stream;
mod text;

pub use bytes::Bytes;
pub use cutter::{Ahead, Cutter, Next, ahead_of, next_of};
pub use frame::{Frame, Frames, MOST_BODY, write_frame};
pub use laws::{bad_length_stays, frames_are_the_longest};
pub use memory::NoMemory;
pub use queue::ByteQueue;
pub use stream::{Cuts, cut_all};
pub use text::Text;

#[cfg(test)]
mod tests;
