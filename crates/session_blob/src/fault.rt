//! Why bytes are no state's.

ghost use Rattle.std.specs.Prelude.{◌≡◌, Some};
ghost use Rattle.session_blob.specs.Faults.{fault_text, blob_fault};
ghost use Rattle.session_blob.specs.declared.fault.BlobFault.TheVariants as fault;

use pgw_messages::MsgFault;
use std::fmt;

/// The first fault, from left to right; `TooLarge` stands before all others.
#[derive(Clone, Copy, Debug, PartialEq, Eq)]
pub enum BlobFault {
    /// A first byte other than 1.
    BadVersion(u8),
    /// A part needs more bytes than remain.
    Short,
    /// Bytes remain behind the last part.
    Trailing,
    /// A text isn't UTF-8, or a name stands twice in its list.
    NotCanonical,
    /// So many bytes, more than `MOST_BLOB`.
    TooLarge(u64),
    /// Memory ran out before all was read.
    NoMemory,
}

impl fmt::Display for BlobFault {
    ghost output = { λ e. Some (fault_text e) };

    fn fmt<W: fmt::Write>(&self, f: &mut fmt::Formatter<W>) -> fmt::Result {
        match self {
            BlobFault::BadVersion(version) => write!(f, "unknown blob version: {version}"),
            BlobFault::Short => write!(f, "blob too short"),
            BlobFault::Trailing => write!(f, "bytes behind the blob"),
            BlobFault::NotCanonical => write!(f, "blob not canonical"),
            BlobFault::TooLarge(count) => write!(f, "blob too large: {count}"),
            BlobFault::NoMemory => write!(f, "no memory"),
        }
    }
}

impl std::error::Error for BlobFault {}

impl From<pgw_frames::NoMemory> for BlobFault {
    ghost from_gives = { λ _ e. e ≡ fault.NoMemory };

    fn from(_e: pgw_frames::NoMemory) -> BlobFault {
        BlobFault::NoMemory
    }
}

/// What a field's fault is for the blob.
impl From<MsgFault> for BlobFault {
    ghost from_gives = { λ f e. e ≡ blob_fault f };

    fn from(fault: MsgFault) -> BlobFault {
        match fault {
            MsgFault::UnknownTag(version) => BlobFault::BadVersion(version),
            MsgFault::Short => BlobFault::Short,
            MsgFault::Trailing => BlobFault::Trailing,
            MsgFault::NotText => BlobFault::NotCanonical,
            MsgFault::BadValue => BlobFault::NotCanonical,
            MsgFault::NoMemory => BlobFault::NoMemory,
        }
    }
}
