//! How much is gathered, and how long calls wait.

use std::time::Duration;

/// How long a read waits before it is idle. Each idle read of a quiet client costs, so they become rarer.
#[derive(Clone, Copy, Debug, PartialEq, Eq)]
pub struct Pace {
    pub fast: Duration,
    /// After so many idle reads in a row a read waits for `slow`, until bytes come or are sent. Whoever counts idle
    /// reads to give up has given up by then.
    pub waits: u64,
    pub slow: Duration,
}

/// The limits of a connection. No time may be zero.
#[derive(Clone, Copy, Debug, PartialEq, Eq)]
pub struct Limits {
    /// The most bytes that are gathered for one socket. At 0 each write is sent at once.
    pub gathered: usize,
    pub pace: Pace,
    /// How long a dial may take.
    pub dial: Duration,
    /// How long a send may wait for its peer.
    pub send: Duration,
}
