//! What connections come to that end in their openings, or are ready.

use crate::visit::{Seen, Told, visit_alone, visit_behind};
use proxy_hub::Refusal;
use session_door::DoorCut;
use std::test::*;

/// User `koala`, database `happy-koala-7.db`: tenant 7.
const STARTUP: &[u8] = b"\0\0\0\x2e\0\x03\0\0user\0koala\0database\0happy-koala-7.db\0\0";

/// The same, and then a password, a farewell, and a part of a message.
const WITH_PASSWORD: &[u8] =
    b"\0\0\0\x2e\0\x03\0\0user\0koala\0database\0happy-koala-7.db\0\0p\0\0\0\x08pwd\0";

const WITH_FAREWELL: &[u8] =
    b"\0\0\0\x2e\0\x03\0\0user\0koala\0database\0happy-koala-7.db\0\0X\0\0\0\x04";

const WITH_PART: &[u8] = b"\0\0\0\x2e\0\x03\0\0user\0koala\0database\0happy-koala-7.db\0\0p\0\0\0";

/// User `koala` alone.
const NO_CLUSTER: &[u8] = b"\0\0\0\x14\0\x03\0\0user\0koala\0\0";

/// What the pod is sent: the database without its cluster; and then the client's login.
const PACKET: &[u8] = b"\0\0\0\x20\0\x03\0\0user\0koala\0database\0db\0\0";

const PACKET_AND_PASSWORD: &[u8] =
    b"\0\0\0\x20\0\x03\0\0user\0koala\0database\0db\0\0p\0\0\0\x08pwd\0";

const PACKET_AND_FAREWELL: &[u8] = b"\0\0\0\x20\0\x03\0\0user\0koala\0database\0db\0\0X\0\0\0\x04";

/// What pods say.
const TRUSTED: &[u8] = b"R\0\0\0\x08\0\0\0\0K\0\0\0\x0c\0\0\0\x05\0\0\0\x06Z\0\0\0\x05I";

const TRUSTED_HEARD: &[u8] =
    b"R\0\0\0\x08\0\0\0\0K\0\0\0\x0c\0\0\0\x01\x01\x02\x03\x04Z\0\0\0\x05I";

const REFUSES: &[u8] = b"R\0\0\0\x08\0\0\0\x03E\0\0\0\x0cC28P01\0\0";

const ASKS: &[u8] = b"R\0\0\0\x08\0\0\0\x03";

const GREETS: &[u8] = b"R\0\0\0\x08\0\0\0\0";

/// What clients are told that aren't served.
const TOLD_NO_CLUSTER: &[u8] = b"E\0\0\0\x2fSFATAL\0VFATAL\0C08004\0Mno cluster is named\0\0";

const TOLD_NO_POD: &[u8] = b"E\0\0\0\x2dSFATAL\0VFATAL\0C08004\0Mno pod is running\0\0";

const TOLD_UNREACHED: &[u8] = b"E\0\0\0\x33SFATAL\0VFATAL\0C08004\0Mno pod could be reached\0\0";

const TOLD_FULL: &[u8] = b"E\0\0\0\x30SFATAL\0VFATAL\0C53300\0Mtoo many connections\0\0";

#[test]
fn what_connections_come_to(rt: HostRuntime) -> Result<(), Fail> {
    let ready = Told::Ready(1, 0x0102_0304, Some(5));
    let late = Told::CutAtDoor(DoorCut::Late(3));
    let no_pod = Told::Refused(Refusal::NoPod);
    // How many commands the hub takes, and how many pods run; what the client sends, its idle reads, and what the pod says that is
    // dialed, where one answers; what it comes to, what the client hears, the dials, and what the link was sent that was hung up.
    let rows: [(
        u32,
        u32,
        &[u8],
        &[u64],
        Option<&[u8]>,
        Told,
        &[u8],
        usize,
        Option<&[u8]>,
    ); 10] = [
        (
            99,
            1,
            STARTUP,
            &[],
            Some(TRUSTED),
            ready,
            TRUSTED_HEARD,
            1,
            None,
        ),
        (
            99,
            1,
            WITH_PASSWORD,
            &[],
            Some(REFUSES),
            Told::AuthRefused,
            REFUSES,
            1,
            Some(PACKET_AND_PASSWORD),
        ),
        (
            99,
            1,
            WITH_FAREWELL,
            &[],
            Some(ASKS),
            Told::Left,
            ASKS,
            1,
            Some(PACKET_AND_FAREWELL),
        ),
        (
            99,
            1,
            WITH_PART,
            &[],
            Some(ASKS),
            Told::ClientEnded,
            ASKS,
            1,
            Some(PACKET),
        ),
        (
            99,
            1,
            STARTUP,
            &[],
            Some(GREETS),
            Told::PodEnded,
            GREETS,
            1,
            Some(PACKET),
        ),
        (
            99,
            2,
            STARTUP,
            &[],
            None,
            Told::DialFault,
            TOLD_UNREACHED,
            2,
            None,
        ),
        (99, 0, STARTUP, &[], None, no_pod, TOLD_NO_POD, 0, None),
        (
            2,
            1,
            STARTUP,
            &[],
            None,
            Told::JournalFull(2),
            TOLD_FULL,
            0,
            None,
        ),
        (
            99,
            1,
            NO_CLUSTER,
            &[],
            None,
            Told::RefusedAtDoor,
            TOLD_NO_CLUSTER,
            0,
            None,
        ),
        (99, 1, STARTUP, &[1, 2, 3], None, late, b"", 0, None),
    ];
    for (most, pods, client, idle, pod, told, heard, dials, sent) in rows {
        let seen = visit_alone(&rt, rt.alloc(), most, pods, client, idle, pod, heard, sent)?;
        let want = Seen {
            told,
            heard: true,
            dials,
            sent: true,
        };
        assert_eq!(rt; seen, want);
    }
    Ok(())
}

const TOLD_TO_WAIT: &[u8] =
    b"E\0\0\0\x42SFATAL\0VFATAL\0C08004\0Mtoo many failed logins, wait until 101\0\0";

/// A request to cancel with the key that the client was given, and as the pod is sent it.
const CANCEL: &[u8] = b"\0\0\0\x10\x04\xd2\x16\x2e\0\0\0\x01\x01\x02\x03\x04";

const CANCEL_SENT: &[u8] = b"\0\0\0\x10\x04\xd2\x16\x2e\0\0\0\x05\0\0\0\x06";

#[test]
fn what_comes_behind_another(rt: HostRuntime) -> Result<(), Fail> {
    let throttled = Told::Refused(Refusal::Throttled(101));
    // The first client with what its pod says; the second with what it comes to, as above.
    let rows: [(
        &[u8],
        &[u8],
        &[u8],
        Option<&[u8]>,
        Told,
        &[u8],
        usize,
        Option<&[u8]>,
    ); 2] = [
        (
            WITH_PASSWORD,
            REFUSES,
            STARTUP,
            None,
            throttled,
            TOLD_TO_WAIT,
            0,
            None,
        ),
        (
            STARTUP,
            TRUSTED,
            CANCEL,
            Some(b""),
            Told::Cancelled,
            b"",
            1,
            Some(CANCEL_SENT),
        ),
    ];
    for (first, first_pod, client, pod, told, heard, dials, sent) in rows {
        let seen = visit_behind(&rt, rt.alloc(), first, first_pod, client, pod, heard, sent)?;
        let want = Seen {
            told,
            heard: true,
            dials,
            sent: true,
        };
        assert_eq!(rt; seen, want);
    }
    Ok(())
}
