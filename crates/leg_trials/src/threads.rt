//! Both legs, each on a thread of its own.

use memory_links::{MeetSink, MeetSource, ScriptBack, ScriptBoard, ScriptFront, meeting};
use pgw_frames::NoMemory;
use processor_core::{Request, Response};
use proxy_links::Marks;
use proxy_outside::{MemSink, MemSource};
use session_legs::{LegEnd, run_legs};
use std::alloc::Global;
use std::sync::Wait;
use std::test::*;
use std::thread::Threads;

const ASKED: &[u8] = b"Q\0\0\0\x061\0X\0\0\0\x04";

const ANSWER: &[u8] = b"Z\0\0\0\x05I";

/// Runs both legs, and says why they ended, and whether each sink took just what it had to.
fn run<R: Wait + Threads + Sync>(
    rt: &R,
    alloc: Global,
    client: (MeetSource, MeetSink),
    pod: (MemSource, MemSink),
    halves: (ScriptFront, ScriptBack),
) -> (LegEnd, LegEnd, bool) {
    let (front, back) = halves;
    let (source, out) = client;
    let (rx, tx) = pod;
    let (request, response) = (Request::new(alloc), Response::new(alloc));
    let (one, two) = run_legs(rt, source, tx, front, request, rx, out, back, response);
    let is_asked = one.tx.contents() == ASKED;
    (
        one.why,
        two.why,
        is_asked && two.client.contents() == ANSWER,
    )
}

fn pod(alloc: Global) -> Result<(MemSource, MemSink), NoMemory> {
    let rx = MemSource::make(alloc, ANSWER, 1, &[], &[])?;
    Ok((rx, MemSink::make(alloc, 9, &[])?))
}

/// The second message waits until the first reply is written, and that write for the second message.
fn tried<R: Wait + Threads + Sync>(
    rt: &R,
    alloc: Global,
) -> Result<(LegEnd, LegEnd, bool), NoMemory> {
    let client = meeting(alloc, &ASKED[..7], &ASKED[7..], 0, 1_000_000_000)?;
    let pod = pod(alloc)?;
    let mut board = ScriptBoard::make(alloc, &[], &[])?;
    let halves = board.ends();
    Ok(run(rt, alloc, client, pod, halves))
}

#[test]
fn both_run_at_once(rt: HostRuntime) -> Result<(), NoMemory> {
    let want = (LegEnd::Terminated, LegEnd::Ended, true);
    assert_eq!(rt; tried(&rt, rt.alloc())?, want);
    Ok(())
}
