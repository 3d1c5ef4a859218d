use crate::{DoorFault, Rejection};
use pgw_frames::{Bytes, Text, write_frame};
use std::test::*;

#[test]
fn what_a_client_is_told(rt: HostRuntime) -> Result<(), Fail> {
    let rows = [
        (Rejection::BadPacket, "08P01", "bad startup packet"),
        (
            Rejection::BadVersion,
            "0A000",
            "protocol version not supported",
        ),
        (
            Rejection::TooManyRequests,
            "08P01",
            "too many encryption requests",
        ),
        (Rejection::ReservedParam, "08P01", "reserved parameter"),
        (Rejection::NoUser, "08P01", "no user is named"),
        (Rejection::TwoClusters, "08004", "two clusters are named"),
        (Rejection::NoCluster, "08004", "no cluster is named"),
        (Rejection::BadTenant, "08004", "bad cluster name"),
        (Rejection::Denied(0), "08004", "denied by entry 0"),
        (
            Rejection::Denied(4_294_967_295),
            "08004",
            "denied by entry 4294967295",
        ),
        (Rejection::NotAllowed, "08004", "address is not allowed"),
        (
            Rejection::Throttled(101),
            "08004",
            "too many failed logins, wait until 101",
        ),
        (
            Rejection::Throttled(u64::MAX),
            "08004",
            "too many failed logins, wait until 18446744073709551615",
        ),
        (Rejection::NoTenant, "08004", "no such tenant"),
        (Rejection::NoPod, "08004", "no pod is running"),
        (Rejection::NoNumbers, "53300", "too many connections"),
        (Rejection::JournalFull, "53300", "too many connections"),
        (Rejection::DialFault, "08004", "no pod could be reached"),
    ];
    for (why, code, message) in rows {
        assert_eq!(rt; why.code(), code);
        assert_eq!(rt; why.message(rt.alloc())?.as_str(), message);
    }
    Ok(())
}

#[test]
fn faults_at_the_door(rt: HostRuntime) -> Result<(), Fail> {
    let name = || Text::of(rt.alloc(), "x");
    let rows = [
        (DoorFault::TooLong(1), Rejection::BadPacket),
        (DoorFault::BadLength(1), Rejection::BadPacket),
        (DoorFault::BadVersion(1), Rejection::BadVersion),
        (DoorFault::TooManyRequests, Rejection::TooManyRequests),
        (DoorFault::BadPairs, Rejection::BadPacket),
        (DoorFault::ReservedParam(name()?), Rejection::ReservedParam),
        (DoorFault::NoUser, Rejection::NoUser),
        (DoorFault::TwoClusters, Rejection::TwoClusters),
        (DoorFault::NoCluster, Rejection::NoCluster),
        (DoorFault::BadTenant(name()?), Rejection::BadTenant),
    ];
    for (fault, why) in rows {
        assert_eq!(rt; fault.rejection(), why);
    }
    Ok(())
}

#[test]
fn a_rejection_on_the_wire(rt: HostRuntime) -> Result<(), Fail> {
    let rows: [(Rejection, &[u8]); 2] = [
        (
            Rejection::NoCluster,
            b"E\0\0\0\x2fSFATAL\0VFATAL\0C08004\0Mno cluster is named\0\0",
        ),
        (
            Rejection::Denied(3),
            b"E\0\0\0\x2dSFATAL\0VFATAL\0C08004\0Mdenied by entry 3\0\0",
        ),
    ];
    for (why, want) in rows {
        let mut wire = Bytes::new(rt.alloc());
        write_frame(&why.frame(rt.alloc())?, &mut wire)?;
        assert_eq!(rt; wire.as_slice(), want);
    }
    Ok(())
}
