//! Why pods make no row.

ghost use Rattle.std.specs.Prelude.{◌≡◌, Some};
ghost use Rattle.tenant_directory.specs.Faults.{fault_text};
ghost use Rattle.tenant_directory.specs.declared.fault.RowFault.TheVariants as fault;

use proxy_outside::PodNo;
use std::alloc::{AllocError, AllocFailed};
use std::fmt;

/// What is wrong with a list of pods. Where both are, `TooMany`.
#[derive(Clone, Copy, Debug, PartialEq, Eq)]
pub enum RowFault {
    /// A pod's number stands at an earlier place too; the first that does.
    TwicePod(PodNo),
    /// So many pods, which are more than 1,000; 4,294,967,295 where it is more.
    TooMany(u32),
    NoMemory,
}

impl fmt::Display for RowFault {
    ghost output = { λ e. Some (fault_text e) };

    fn fmt<W: fmt::Write>(&self, f: &mut fmt::Formatter<W>) -> fmt::Result {
        match self {
            RowFault::TwicePod(pod) => {
                let number = pod.0;
                write!(f, "pod listed twice: {number}")
            }
            RowFault::TooMany(pods) => write!(f, "too many pods: {pods}"),
            RowFault::NoMemory => write!(f, "no memory"),
        }
    }
}

impl std::error::Error for RowFault {}

impl From<pgw_frames::NoMemory> for RowFault {
    ghost from_gives = { λ _ e. e ≡ fault.NoMemory };

    fn from(_e: pgw_frames::NoMemory) -> RowFault {
        RowFault::NoMemory
    }
}

impl From<AllocError> for RowFault {
    ghost from_gives = { λ _ e. e ≡ fault.NoMemory };

    fn from(_e: AllocError) -> RowFault {
        RowFault::NoMemory
    }
}

impl<T: Drop> From<AllocFailed<T>> for RowFault {
    ghost from_gives = { λ _ e. e ≡ fault.NoMemory };

    fn from(_e: AllocFailed<T>) -> RowFault {
        RowFault::NoMemory
    }
}
