//! Links, moments, random words and jobs over the system's sockets, clock and threads.
//!
//! A system call costs many times what a message does. So what is written is gathered for each socket of a connection,
//! and sent before a read of that connection waits, or once it is much; and a source reads ahead, and waits longer once
//! it was idle often. Each type meets its trait. No contract tells what a peer sends or gets; that gathered bytes are
//! passed on once and in order, and bytes read ahead are handed on so, is proved for every writer and reader that tell
//! them.
#![tactic(auto)]

mod address;
mod connection;
mod dialer;
mod gather;
mod inflow;
mod limits;
mod moments;
mod outs;
mod random;
mod read_ahead;
mod sink;
mod source;
mod spawn;
mod stream;

pub use address::{addr_of, socket_addr_of};
pub use connection::Connection;
pub use dialer::TcpDialer;
pub use limits::{Limits, Pace};
pub use moments::SystemClock;
pub use random::RandomWords;
pub use sink::TcpSink;
pub use source::TcpSource;
pub use spawn::start_on_thread;

#[cfg(test)]
mod tests;
