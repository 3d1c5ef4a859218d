//! The answer to who wants to log in.

/// Whether a client may try to log in.
#[derive(Clone, Copy, Debug, PartialEq, Eq)]
pub enum Allowance {
    Go,
    /// Not before this moment, in seconds.
    Until(u64),
}
