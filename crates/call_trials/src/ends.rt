//! Connections that end before a session is served: what they come to, what the client hears, and what the pod is sent.

use crate::hubs::{Pods, count_asks, hub_of};
use crate::pods::{dialer, is_sent};
use crate::served::{Client, Outcome, client_of, first, heard_by, unserved};
use crate::texts::STARTUP;
use crate::told::Told;
use memory_links::CountBoard;
use std::alloc::Global;
use std::sync::Wait;
use std::test::*;
use std::thread::Threads;

const TOLD_UNREACHED: &[u8] = b"E\0\0\0\x33SFATAL\0VFATAL\0C08004\0Mno pod could be reached\0\0";

/// A client, the rows that its hub has, and what its pods say.
#[derive(Clone, Copy)]
struct Row<'a> {
    client: Client<'a>,
    rows: &'a [Pods],
    pods: &'a [&'a [u8]],
    heard: &'a [u8],
    sent: Option<&'a [u8]>,
}

/// What one connection shows.
#[derive(Clone, Copy, Debug, PartialEq, Eq)]
struct Seen {
    outcome: Outcome,
    /// Whether the client heard just what it is to hear.
    heard: bool,
    /// Whether the pod was sent just what it is to be sent.
    sent: bool,
    dials: usize,
    picks: usize,
    failed_logins: usize,
}

fn tried<R: Wait + Threads + Sync>(rt: &R, alloc: Global, row: Row) -> Result<Seen, Fail> {
    let mut dialer = dialer(alloc, row.pods)?;
    let mut hub = hub_of(alloc, row.rows)?;
    let mut board = CountBoard::make(alloc, &[])?;
    let served = heard_by(
        rt,
        alloc,
        row.client,
        row.heard,
        &mut dialer,
        &mut hub,
        &mut board,
    );
    let (picks, failed_logins) = count_asks(hub.steps());
    let (outcome, heard) = served?;
    Ok(Seen {
        outcome,
        heard,
        sent: is_sent(&dialer, row.sent),
        dials: dialer.dials().len(),
        picks,
        failed_logins,
    })
}

const ONE: [Pods; 1] = [Pods {
    before: 1,
    count: 1,
    draining: 0,
}];

const TWO: [Pods; 1] = [Pods {
    before: 1,
    count: 2,
    draining: 0,
}];

const DRAINING: [Pods; 1] = [Pods {
    before: 1,
    count: 1,
    draining: 1,
}];

#[test]
fn no_pod_is_reached(rt: HostRuntime) -> Result<(), Fail> {
    let row = Row {
        client: client_of(STARTUP),
        rows: &TWO,
        pods: &[],
        heard: TOLD_UNREACHED,
        sent: None,
    };
    let want = Seen {
        outcome: first(Told::DialFault, 0),
        heard: true,
        sent: true,
        dials: 2,
        picks: 3,
        failed_logins: 0,
    };
    assert_eq!(rt; tried(&rt, rt.alloc(), row)?, want);
    Ok(())
}

#[test]
fn a_packet_is_cut_after_each_byte(rt: HostRuntime) -> Result<(), Fail> {
    for count in 1..STARTUP.len() {
        let row = Row {
            client: client_of(&STARTUP[..count]),
            rows: &ONE,
            pods: &[],
            heard: b"",
            sent: None,
        };
        let seen = tried(&rt, rt.alloc(), row)?;
        assert_eq!(rt;
            (seen.outcome, seen.heard),
            (unserved(Told::ClientCut), true),
            "after {count}"
        );
    }
    Ok(())
}
