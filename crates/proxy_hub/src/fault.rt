//! Why a port gives no reply.

ghost use Rattle.std.specs.Prelude.{◌≡◌, Some};
ghost use Rattle.proxy_hub.specs.AtDesks.{fault_of};
ghost use Rattle.proxy_hub.specs.Faults.{fault_text};

use counted_desk::CallFault;
use std::fmt;

/// A port took the command nowhere, and nothing changed.
#[derive(Clone, Copy, Debug, PartialEq, Eq)]
pub enum HubFault {
    NoMemory,
    /// The desk behind the port takes so many commands at most, and has taken them.
    JournalFull(u32),
}

impl From<CallFault> for HubFault {
    ghost from_gives = { λ fault e. e ≡ fault_of fault };

    fn from(fault: CallFault) -> HubFault {
        match fault {
            CallFault::NoMemory => HubFault::NoMemory,
            CallFault::JournalFull(most) => HubFault::JournalFull(most),
        }
    }
}

impl fmt::Display for HubFault {
    ghost output = { λ e. Some (fault_text e) };

    fn fmt<W: fmt::Write>(&self, f: &mut fmt::Formatter<W>) -> fmt::Result {
        match self {
            HubFault::NoMemory => write!(f, "no memory"),
            HubFault::JournalFull(most) => write!(f, "journal full: {most}"),
        }
    }
}

impl std::error::Error for HubFault {}
