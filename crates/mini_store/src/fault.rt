//! Why an operation isn't done.

ghost use Rattle.std.specs.Prelude.{◌≡◌};
ghost use Rattle.mini_store.specs.declared.fault.Fault.TheVariants as fault;
ghost use Rattle.mini_store.specs.Answers.{Gives, must};

use crate::code::SqlCode;
use std::alloc::{AllocError, AllocFailed};

/// What ends an operation before it changes anything.
#[derive(Clone, Copy, Debug, PartialEq, Eq)]
pub(crate) enum Fault {
    Bad(SqlCode),
    NoMemory,
}

impl From<pgw_frames::NoMemory> for Fault {
    ghost from_gives = { λ _ e. e ≡ fault.NoMemory };

    fn from(_e: pgw_frames::NoMemory) -> Fault {
        Fault::NoMemory
    }
}

impl From<AllocError> for Fault {
    ghost from_gives = { λ _ e. e ≡ fault.NoMemory };

    fn from(_e: AllocError) -> Fault {
        Fault::NoMemory
    }
}

impl<T: Drop> From<AllocFailed<T>> for Fault {
    ghost from_gives = { λ _ e. e ≡ fault.NoMemory };

    fn from(_e: AllocFailed<T>) -> Fault {
        Fault::NoMemory
    }
}

/// This code, unless something holds.
pub(crate) fn must(code: SqlCode, holds: bool) -> Result<(), Fault>
    ensures { Gives result (must code holds) }
{
    if holds { Ok(()) } else { Err(Fault::Bad(code)) }
}
