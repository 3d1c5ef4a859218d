//! Why a message can't be read.

ghost use Rattle.std.specs.Prelude.{◌≡◌, Some};
ghost use Rattle.pgw_messages.specs.Faults.{fault_text};
ghost use Rattle.pgw_messages.specs.declared.fault.MsgFault.TheVariants as fault;

use std::alloc::{AllocError, AllocFailed};
use std::fmt;

/// The first fault of a message, from its type byte to its last byte.
#[derive(Clone, Copy, Debug, PartialEq, Eq)]
pub enum MsgFault {
    /// No message of this direction has this type.
    UnknownTag(u8),
    /// A field needs more bytes than remain.
    Short,
    /// Bytes remain behind the last field.
    Trailing,
    /// A text isn't UTF-8.
    NotText,
    /// A value is none of those that its field may have.
    BadValue,
    /// Memory ran out before all was read.
    NoMemory,
}

impl fmt::Display for MsgFault {
    ghost output = { λ e. Some (fault_text e) };

    fn fmt<W: fmt::Write>(&self, f: &mut fmt::Formatter<W>) -> fmt::Result {
        match self {
            MsgFault::UnknownTag(tag) => write!(f, "unknown message type: {tag}"),
            MsgFault::Short => write!(f, "message too short"),
            MsgFault::Trailing => write!(f, "bytes behind the message"),
            MsgFault::NotText => write!(f, "text not in UTF-8"),
            MsgFault::BadValue => write!(f, "bad value in a message"),
            MsgFault::NoMemory => write!(f, "no memory"),
        }
    }
}

impl std::error::Error for MsgFault {}

impl From<pgw_frames::NoMemory> for MsgFault {
    ghost from_gives = { λ _ e. e ≡ fault.NoMemory };

    fn from(_e: pgw_frames::NoMemory) -> MsgFault {
        MsgFault::NoMemory
    }
}

impl From<AllocError> for MsgFault {
    ghost from_gives = { λ _ e. e ≡ fault.NoMemory };

    fn from(_e: AllocError) -> MsgFault {
        MsgFault::NoMemory
    }
}

impl<T: Drop> From<AllocFailed<T>> for MsgFault {
    ghost from_gives = { λ _ e. e ≡ fault.NoMemory };

    fn from(_e: AllocFailed<T>) -> MsgFault {
        MsgFault::NoMemory
    }
}
