//! What a world counts.

/// Counts of one world. Each stops at 2^64 - 1.
#[derive(Clone, Copy, Debug, PartialEq, Eq)]
pub struct Counts {
    /// Transfers that moved the session.
    pub moves: u64,
    /// Transfers that left it where it was.
    pub failed: u64,
    /// Bytes of the client that were read.
    pub taken: u64,
    /// Messages of the client that were sent to a pod.
    pub forwarded: u64,
    /// Messages that were passed to the client, the greeting's with them.
    pub passed: u64,
}
