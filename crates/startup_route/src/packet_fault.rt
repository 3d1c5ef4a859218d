//! What ends the reading of a packet early.

ghost use Rattle.startup_route.specs.declared.packet_fault.PacketFault.TheVariants.{Fault, OutOfMemory};
ghost use Rattle.std.specs.Prelude.{◌≡◌};

use crate::fault::DoorFault;
use pgw_frames::NoMemory;

/// A fault of the client, or want of memory.
#[derive(Debug, Drop)]
pub(crate) enum PacketFault {
    Fault(DoorFault),
    OutOfMemory,
}

impl From<DoorFault> for PacketFault {
    ghost from_gives = { λ fault r. r ≡ Fault fault };

    fn from(fault: DoorFault) -> PacketFault {
        PacketFault::Fault(fault)
    }
}

impl From<NoMemory> for PacketFault {
    ghost from_gives = { λ _ r. r ≡ OutOfMemory };

    fn from(_e: NoMemory) -> PacketFault {
        PacketFault::OutOfMemory
    }
}
