//! What a leg owns, and why it ends.

/// Why a leg ended.
#[derive(Clone, Copy, Debug, PartialEq, Eq)]
pub enum LegEnd {
    /// The last look told it to stop here: the session is to be moved.
    Parked,
    /// The last look told it that the other leg has ended.
    Over,
    /// A Terminate was handed on. Only the request leg ends so.
    Terminated,
    /// What it reads ended between two messages.
    Ended,
    /// What it reads ended inside a message.
    Cut,
    /// What it reads goes on with this length, which is outside 4 to 16,777,220.
    Bad(u32),
    /// The source failed.
    ReadFault,
    /// The sink failed; it may hold a part of one message.
    WriteFault,
    /// Memory was wanted for what was read. At most 8,192 bytes that were read are lost.
    NoMemory,
}

/// What a leg works with.
#[derive(Drop)]
pub(crate) struct Side<S, K, M, P> {
    pub source: S,
    pub sink: K,
    pub marks: M,
    pub processor: P,
}
