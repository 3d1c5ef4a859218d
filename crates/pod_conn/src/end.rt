//! How a connection ends.

ghost use Rattle.std.specs.Prelude.{◌≡◌};
ghost use Rattle.pod_conn.specs.Ends.{end_of};

use counted_desk::CallFault;
use pgw_frames::NoMemory;

/// Why a connection ended.
#[derive(Clone, Copy, Debug, PartialEq, Eq)]
pub enum PodEnd {
    /// The client said that it leaves, came to cancel, or ended between two messages.
    Closed,
    /// The client ended inside a message.
    ClientCut,
    /// A length that begins no message.
    BadFrame(u32),
    /// The first packets are none that can be served.
    BadStartup,
    /// The password or the token was refused, and the client was told so.
    AuthRefused,
    ReadFault,
    WriteFault,
    /// The store's journal takes so many commands at most, and has taken them.
    JournalFull(u32),
    NoMemory,
}

impl From<NoMemory> for PodEnd {
    ghost use Rattle.pod_conn.specs.declared.end.PodEnd.TheVariants.{NoMemory as OutOfMemory};

    ghost from_gives = { λ _ e. e ≡ OutOfMemory };

    fn from(_e: NoMemory) -> PodEnd {
        PodEnd::NoMemory
    }
}

impl From<CallFault> for PodEnd {
    ghost from_gives = { λ fault e. e ≡ end_of fault };

    fn from(fault: CallFault) -> PodEnd {
        match fault {
            CallFault::NoMemory => PodEnd::NoMemory,
            CallFault::JournalFull(most) => PodEnd::JournalFull(most),
        }
    }
}
