//! What the calls of a desk answer.

ghost use Rattle.std.specs.Prelude.{Some};
ghost use Rattle.counted_desk.specs.Faults.{fault_text};

use std::fmt;

/// Why a call was not taken. Nothing was added to the journal.
#[derive(Clone, Copy, Debug, PartialEq, Eq, Drop)]
pub enum CallFault {
    NoMemory,
    /// The journal has all the entries that it takes; the number is the desk's limit.
    JournalFull(u32),
}

impl fmt::Display for CallFault {
    ghost output = { λ e. Some (fault_text e) };

    fn fmt<W: fmt::Write>(&self, f: &mut fmt::Formatter<W>) -> fmt::Result {
        match self {
            CallFault::NoMemory => write!(f, "no memory"),
            CallFault::JournalFull(most) => write!(f, "journal full: {most}"),
        }
    }
}

impl std::error::Error for CallFault {}

/// A call that was taken: its place in the desk's history, counted from 0, and the machine's reply.
#[derive(Drop)]
pub struct Receipt<R> {
    pub place: u64,
    pub reply: R,
}

/// What is left of a desk: machine and journal, or nothing, where a call still has them out.
#[derive(Drop)]
pub enum Closed<M, J> {
    Whole(M, J),
    Held,
}
