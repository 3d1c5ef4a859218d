//! Links to pods, the board that the two legs of a connection share, moments, random words and jobs, as
//! traits.
//!
//! They stand beside `proxy_outside`, whose sources and sinks are the halves of a link. Each trait tells
//! what its object holds where it can, and counts that never fall and stop at 2^64 - 1. Nothing here opens
//! a socket, waits or starts a thread.
#![tactic(auto)]

mod clock;
mod dialer;
mod marks;
mod spawner;
mod words;

pub use clock::Clock;
pub use dialer::{Dial, Dialed, Dialer};
pub use marks::{BackMarks, FrontMarks, Look, Marks};
pub use spawner::{Spawner, StartBy, Started};
pub use words::Words;

#[cfg(test)]
mod tests;
