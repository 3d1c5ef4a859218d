//! Both legs at once.

ghost use Rattle.std.specs.Prelude.{◌≡◌};

use crate::hubs::{Pods, hub_of};
use crate::served::{LIMITS, Outcome, first, outcome_of, serve};
use crate::texts::{HEARD_ONE, HEARD_TWO, QUERY, STARTUP_AND_QUERY, TERMINATE};
use crate::told::Told;
use memory_links::{CountBoard, GatedPiece, GatedSource, WatchedSink, gated, meeting};
use pgw_frames::{Bytes, NoMemory};
use pod_dialer::PodDialer;
use proxy_outside::{Sink, Source};
use proxy_session::Ended;
use std::alloc::Global;
use std::sync::Wait;
use std::test::*;
use std::thread::Threads;
use tally_session::TallySession;

const ONE: [Pods; 1] = [Pods {
    before: 1,
    count: 1,
    draining: 0,
}];

/// Serves a client at a tally behind one pod; the board never asks for a stop.
fn served<R: Wait + Threads + Sync, S: Source + Send + Drop, K: Sink + Send + Drop>(
    rt: &R,
    alloc: Global,
    client_in: S,
    client_out: K,
) -> Result<Ended<S, K>, Fail> {
    let mut dialer = PodDialer::<R, TallySession>::make(rt, alloc, 4096)?;
    let mut hub = hub_of(alloc, &ONE)?;
    let mut board = CountBoard::make(alloc, &[])?;
    let ended = serve(
        rt,
        alloc,
        client_in,
        client_out,
        &mut dialer,
        &mut hub,
        &mut board,
        LIMITS,
    )?;
    Ok(ended)
}

/// The second Query comes once the first reply is written, and the Terminate once the second one is. Listed writes fail.
fn gates(alloc: Global, failing: &[u64]) -> Result<(GatedSource, WatchedSink), NoMemory> {
    let mut pieces = Vec::new(alloc);
    for (after, bytes) in [(0, STARTUP_AND_QUERY), (47, QUERY), (66, TERMINATE)] {
        let bytes = Bytes::of(alloc, bytes)?;
        pieces.push(GatedPiece { after, bytes })?;
    }
    gated(alloc, pieces, failing)
}

/// What it came to, and whether the client heard both replies, or a part of what it would have heard.
fn at_gates<R: Wait + Threads + Sync>(
    rt: &R,
    alloc: Global,
    failing: &[u64],
) -> Result<(Outcome, bool, bool), Fail> {
    let (source, sink) = gates(alloc, failing)?;
    let ended = served(rt, alloc, source, sink)?;
    let heard = ended.client_out.contents();
    Ok((
        outcome_of(&ended),
        heard == HEARD_TWO,
        HEARD_TWO.starts_with(heard),
    ))
}

#[test]
fn each_query_waits_for_a_reply(rt: HostRuntime) -> Result<(), Fail> {
    // Greeting and first reply are five messages, so five writes at least.
    for failing in [1, 2, 3, 4, 5] {
        let seen = at_gates(&rt, rt.alloc(), &[failing])?;
        assert_eq!(rt;
            seen,
            (first(Told::ClientWriteFault, 0), false, true),
            "at {failing}"
        );
    }
    let seen = at_gates(&rt, rt.alloc(), &[])?;
    assert_eq!(rt; seen, (first(Told::Bye, 0), true, true));
    Ok(())
}

fn at_meeting<R: Wait + Threads + Sync>(rt: &R, alloc: Global) -> Result<(Outcome, bool), Fail> {
    let (source, sink) = meeting(alloc, STARTUP_AND_QUERY, TERMINATE, 28, 1_000_000_000)?;
    let ended = served(rt, alloc, source, sink)?;
    Ok((outcome_of(&ended), ended.client_out.contents() == HEARD_ONE))
}

#[test]
fn a_read_and_a_write_wait_for_each_other(rt: HostRuntime) -> Result<(), Fail> {
    assert_eq!(rt; at_meeting(&rt, rt.alloc())?, (first(Told::Bye, 0), true));
    Ok(())
}
