//! Both legs over the real board.

use atomic_board::{AtomicBack, AtomicBoard, AtomicFront};
use memory_links::{GatedPiece, GatedSource, gated};
use pgw_frames::{Bytes, NoMemory};
use processor_core::{Request, Response};
use proxy_links::Marks;
use proxy_outside::MemSink;
use session_legs::{LegEnd, run_legs};
use std::alloc::Global;
use std::sync::Wait;
use std::test::*;
use std::thread::Threads;

/// A source that gives a message, or is idle for ever.
fn source(alloc: Global, is_silent: bool, bytes: &[u8]) -> Result<GatedSource, NoMemory> {
    let after = if is_silent { u64::MAX } else { 0 };
    let bytes = Bytes::of(alloc, bytes)?;
    let mut pieces = Vec::new(alloc);
    pieces.push(GatedPiece { after, bytes })?;
    Ok(gated(alloc, pieces, &[])?.0)
}

fn run<R: Wait + Threads + Sync>(
    rt: &R,
    alloc: Global,
    sources: (GatedSource, GatedSource),
    sinks: (MemSink, MemSink),
    halves: (AtomicFront, AtomicBack),
) -> (LegEnd, LegEnd) {
    let (front, back) = halves;
    let (client, rx) = sources;
    let (tx, out) = sinks;
    let (request, response) = (Request::new(alloc), Response::new(alloc));
    let (one, two) = run_legs(rt, client, tx, front, request, rx, out, back, response);
    (one.why, two.why)
}

fn sources(alloc: Global, is_silent: bool) -> Result<(GatedSource, GatedSource), NoMemory> {
    let client = source(alloc, is_silent, b"S\0\0\0\x04")?;
    Ok((client, source(alloc, !is_silent, b"Z\0\0\0\x05I")?))
}

fn sinks(alloc: Global) -> Result<(MemSink, MemSink), NoMemory> {
    let tx = MemSink::make(alloc, 9, &[1])?;
    Ok((tx, MemSink::make(alloc, 9, &[1])?))
}

/// Runs both legs where one side is silent and each first write fails.
fn ends<R: Wait + Threads + Sync>(
    rt: &R,
    alloc: Global,
    is_silent: bool,
) -> Result<(LegEnd, LegEnd), NoMemory> {
    let sources = sources(alloc, is_silent)?;
    let sinks = sinks(alloc)?;
    let (mut board, _bell) = AtomicBoard::make(alloc)?;
    let halves = board.ends();
    Ok(run(rt, alloc, sources, sinks, halves))
}

#[test]
fn a_fault_of_one_leg_ends_the_other(rt: HostRuntime) -> Result<(), NoMemory> {
    let rows = [
        (true, (LegEnd::Over, LegEnd::WriteFault)),
        (false, (LegEnd::WriteFault, LegEnd::Over)),
    ];
    for (is_silent, want) in rows {
        assert_eq!(rt; ends(&rt, rt.alloc(), is_silent)?, want);
    }
    Ok(())
}
