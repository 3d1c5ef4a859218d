//! The answer to a client.

/// Whether a client may come in.
#[derive(Clone, Copy, Debug, PartialEq, Eq)]
pub enum Verdict {
    Pass,
    /// The place of the first deny entry that matches, counted from 0; 4,294,967,295 where it is more.
    Denied(u32),
    /// The tenant has an allow list, and no network of it has the address.
    NotAllowed,
}
