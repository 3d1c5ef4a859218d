//! How a response leg ends.

use memory_links::{ScriptBack, ScriptBoard};
use pgw_frames::NoMemory;
use processor_core::Response;
use proxy_links::Marks;
use proxy_outside::{MemSink, MemSource};
use session_legs::{LegEnd, response_leg};
use std::alloc::Global;
use std::sync::Wait;
use std::test::*;

/// A CommandComplete and a ReadyForQuery.
const TEXT: &[u8] = b"C\0\0\0\x05\0Z\0\0\0\x05I";

fn run<R: Wait>(
    rt: &R,
    alloc: Global,
    rx: MemSource,
    out: MemSink,
    back: ScriptBack,
) -> (LegEnd, usize, u64) {
    let end = response_leg(rt, rx, out, back, Response::new(alloc));
    let written = end.client.contents();
    let count = if TEXT.starts_with(written) {
        written.len()
    } else {
        0
    };
    (end.why, count, end.response.tally().zs)
}

/// Runs a leg over the first bytes, and says why it ended, how many of the bytes it wrote, and how many
/// ReadyForQuery it counted.
fn tried<R: Wait>(rt: &R, alloc: Global, count: usize) -> Result<(LegEnd, usize, u64), NoMemory> {
    let rx = MemSource::make(alloc, &TEXT[..count.min(TEXT.len())], 8192, &[], &[])?;
    let out = MemSink::make(alloc, 8192, &[])?;
    let mut board = ScriptBoard::make(alloc, &[], &[])?;
    let (_front, back) = board.ends();
    Ok(run(rt, alloc, rx, out, back))
}

#[test]
fn the_pod_ends_at_each_byte(rt: HostRuntime) -> Result<(), NoMemory> {
    for count in 0..=12usize {
        let whole = count / 6 * 6;
        let why = if whole == count {
            LegEnd::Ended
        } else {
            LegEnd::Cut
        };
        let want = (why, whole, count as u64 / 12);
        assert_eq!(rt; tried(&rt, rt.alloc(), count)?, want, "at {count}");
    }
    Ok(())
}
