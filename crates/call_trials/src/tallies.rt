//! Clients of a tally, by how their bytes end and by the calls that fail.

use crate::hubs::{Pods, hub_of};
use crate::served::{Client, Outcome, client_of, first, heard_by};
use crate::texts::{HEARD_ONE, STARTUP, STARTUP_AND_QUERY};
use crate::told::Told;
use memory_links::CountBoard;
use pod_dialer::PodDialer;
use std::alloc::Global;
use std::sync::Wait;
use std::test::*;
use std::thread::Threads;
use tally_session::TallySession;

const ONE: [Pods; 1] = [Pods {
    before: 1,
    count: 1,
    draining: 0,
}];

/// What it came to, and whether the client heard this.
fn tried<R: Wait + Threads + Sync>(
    rt: &R,
    alloc: Global,
    client: Client,
    heard: &[u8],
) -> Result<(Outcome, bool), Fail> {
    let mut dialer = PodDialer::<R, TallySession>::make(rt, alloc, 4096)?;
    let mut hub = hub_of(alloc, &ONE)?;
    let mut board = CountBoard::make(alloc, &[])?;
    Ok(heard_by(rt, alloc, client, heard, &mut dialer, &mut hub, &mut board)?)
}

/// The startup packet and a Terminate, a part of a message, or a bad length.
const AND_FAREWELL: &[u8] =
    b"\0\0\0\x2e\0\x03\0\0user\0koala\0database\0happy-koala-7.db\0\0X\0\0\0\x04";

const AND_PART: &[u8] =
    b"\0\0\0\x2e\0\x03\0\0user\0koala\0database\0happy-koala-7.db\0\0Q\0\0\0\x06";

const AND_BAD_LENGTH: &[u8] =
    b"\0\0\0\x2e\0\x03\0\0user\0koala\0database\0happy-koala-7.db\0\0Q\0\0\0\x03";

const GREETING: &[u8] = b"R\0\0\0\x08\0\0\0\0K\0\0\0\x0c\0\0\0\x01\x01\x02\x03\x04Z\0\0\0\x05I";

#[test]
fn by_how_the_bytes_end(rt: HostRuntime) -> Result<(), Fail> {
    let rows: [(&[u8], usize, Told, &[u8]); 6] = [
        (STARTUP, 64, Told::Bye, GREETING),
        (AND_FAREWELL, 64, Told::Bye, GREETING),
        (STARTUP_AND_QUERY, 64, Told::Bye, HEARD_ONE),
        (STARTUP_AND_QUERY, 1, Told::Bye, HEARD_ONE),
        (AND_PART, 64, Told::ClientCut, GREETING),
        (AND_BAD_LENGTH, 64, Told::BadClientFrame(3), GREETING),
    ];
    for (bytes, piece, told, heard) in rows {
        let client = Client {
            piece,
            ..client_of(bytes)
        };
        let seen = tried(&rt, rt.alloc(), client, heard)?;
        assert_eq!(rt; seen, (first(told, 0), true));
    }
    Ok(())
}

#[test]
fn by_the_read_that_fails(rt: HostRuntime) -> Result<(), Fail> {
    // The packet takes two reads at least, and the Terminate one.
    let fault = Told::ClientReadFault;
    for (failing, told) in [(1, fault), (2, fault), (3, fault), (30, Told::Bye)] {
        let client = Client {
            failing_reads: &[failing],
            ..client_of(AND_FAREWELL)
        };
        let seen = tried(&rt, rt.alloc(), client, GREETING)?;
        assert_eq!(rt; seen.0.told, told, "at {failing}");
    }
    Ok(())
}
