//! Why a round was broken off.

ghost use Rattle.std.specs.Prelude.{◌≡◌};
ghost use Rattle.pod_drain.specs.declared.fault.DrainFault.TheVariants as fault;

use proxy_hub::HubFault;

/// A round was broken off: what was asked and rung before stands.
#[derive(Clone, Copy, Debug, PartialEq, Eq)]
pub enum DrainFault {
    /// The port's answer.
    Hub(HubFault),
    NoMemory,
}

impl From<HubFault> for DrainFault {
    ghost from_gives = { λ e f. f ≡ fault.Hub e };

    fn from(e: HubFault) -> DrainFault {
        DrainFault::Hub(e)
    }
}

impl From<pgw_frames::NoMemory> for DrainFault {
    ghost from_gives = { λ _ f. f ≡ fault.NoMemory };

    fn from(_e: pgw_frames::NoMemory) -> DrainFault {
        DrainFault::NoMemory
    }
}
