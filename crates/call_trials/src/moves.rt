//! A session that is moved.

use crate::hubs::{Pods, hub_of};
use crate::served::{Outcome, client_of, first, heard_by};
use crate::texts::{HEARD_TWO, STARTUP_AND_QUERIES};
use crate::told::Told;
use memory_links::CountBoard;
use pod_dialer::PodDialer;
use std::alloc::Global;
use std::sync::Wait;
use std::test::*;
use std::thread::Threads;
use tally_session::TallySession;

/// Before its seventh ask the session's pod is draining, and another runs.
const ROWS: [Pods; 2] = [
    Pods {
        before: 1,
        count: 1,
        draining: 0,
    },
    Pods {
        before: 7,
        count: 2,
        draining: 1,
    },
];

/// What it came to, whether the client heard what it is to hear, and the dials.
fn tried<R: Wait + Threads + Sync>(
    rt: &R,
    alloc: Global,
    rows: &[Pods],
) -> Result<(Outcome, bool, usize), Fail> {
    let mut dialer = PodDialer::<R, TallySession>::make(rt, alloc, 4096)?;
    let mut hub = hub_of(alloc, rows)?;
    let mut board = CountBoard::make(alloc, &[1])?;
    let client = client_of(STARTUP_AND_QUERIES);
    let (outcome, heard) = heard_by(
        rt,
        alloc,
        client,
        HEARD_TWO,
        &mut dialer,
        &mut hub,
        &mut board,
    )?;
    Ok((outcome, heard, dialer.dials().len()))
}

#[test]
fn between_two_queries(rt: HostRuntime) -> Result<(), Fail> {
    for (count, moves, dials) in [(1, 0, 1), (2, 1, 2)] {
        let seen = tried(&rt, rt.alloc(), &ROWS[..count])?;
        assert_eq!(rt; seen, (first(Told::Bye, moves), true, dials));
    }
    Ok(())
}
