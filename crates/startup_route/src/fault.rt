//! Why a client is refused at the door.

ghost use Rattle.startup_route.specs.Rejections.{rejection_of};
ghost use Rattle.std.specs.Prelude.{◌≡◌};

use crate::rejection::Rejection;
use pgw_frames::Text;

/// What is wrong with the first packets of a client. Where more than one is, the first of this list.
#[derive(Debug, Drop)]
pub enum DoorFault {
    /// The length is above 10,000.
    TooLong(u32),
    /// The length is below 8, or isn't that of the packet that the code says: 8 of a request for
    /// encryption, 16 of a request to cancel, more than 8 of a startup packet.
    BadLength(u32),
    /// The code is none of these packets, and version 3.0 is the one that is spoken.
    BadVersion(u32),
    /// This is the third request for encryption.
    TooManyRequests,
    /// The packet's body isn't names and values, each ended by a zero byte, and a zero byte, in UTF-8.
    BadPairs,
    /// The first name that begins with `crdb:`.
    ReservedParam(Text),
    /// The user is missing or empty.
    NoUser,
    /// Two clusters are named that differ.
    TwoClusters,
    /// No cluster is named.
    NoCluster,
    /// The cluster's name ends in no tenant's number.
    BadTenant(Text),
}

impl DoorFault {
    /// The same as a refused client is told of it.
    pub fn rejection(&self) -> Rejection
        ensures { result ≡ rejection_of self.now }
    {
        match self {
            DoorFault::TooLong(_) => Rejection::BadPacket,
            DoorFault::BadLength(_) => Rejection::BadPacket,
            DoorFault::BadVersion(_) => Rejection::BadVersion,
            DoorFault::TooManyRequests => Rejection::TooManyRequests,
            DoorFault::BadPairs => Rejection::BadPacket,
            DoorFault::ReservedParam(_) => Rejection::ReservedParam,
            DoorFault::NoUser => Rejection::NoUser,
            DoorFault::TwoClusters => Rejection::TwoClusters,
            DoorFault::NoCluster => Rejection::NoCluster,
            DoorFault::BadTenant(_) => Rejection::BadTenant,
        }
    }
}
