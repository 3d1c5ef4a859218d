//! How a request leg ends, by what it reads and by what the board tells, and at a fault of each read and write.

use memory_links::{ScriptBoard, ScriptFront};
use pgw_frames::NoMemory;
use processor_core::Request;
use proxy_links::{Look, Marks};
use proxy_outside::{MemSink, MemSource};
use session_legs::{LegEnd, request_leg};
use std::alloc::Global;
use std::sync::Wait;
use std::test::*;

/// What a leg meets: bytes, read five at a time, reads that are idle or fail, writes that fail, and the board's
/// answers.
#[derive(Clone, Copy)]
struct Given<'a> {
    bytes: &'a [u8],
    idle: &'a [u64],
    failing_reads: &'a [u64],
    failing_writes: &'a [u64],
    answers: &'a [Look],
}

/// Why a leg ended, how many of the bytes it wrote, and how many Query and Sync it counted.
#[derive(Clone, Copy, Debug, PartialEq, Eq)]
struct Passed {
    why: LegEnd,
    written: Option<usize>,
    qs: u64,
}

fn written_of(sink: &MemSink, bytes: &[u8]) -> Option<usize> {
    let written = sink.contents();
    if bytes.starts_with(written) {
        Some(written.len())
    } else {
        None
    }
}

fn run<R: Wait>(
    rt: &R,
    alloc: Global,
    client: MemSource,
    tx: MemSink,
    front: ScriptFront,
    bytes: &[u8],
) -> Passed {
    let end = request_leg(rt, client, tx, front, Request::new(alloc));
    Passed {
        why: end.why,
        written: written_of(&end.tx, bytes),
        qs: end.request.tally().qs,
    }
}

fn tried<R: Wait>(rt: &R, alloc: Global, given: Given) -> Result<Passed, NoMemory> {
    let client = MemSource::make(alloc, given.bytes, 5, given.idle, given.failing_reads)?;
    let tx = MemSink::make(alloc, 4, given.failing_writes)?;
    let mut board = ScriptBoard::make(alloc, given.answers, &[])?;
    let (front, _back) = board.ends();
    Ok(run(rt, alloc, client, tx, front, given.bytes))
}

#[test]
fn it_reads(rt: HostRuntime) -> Result<(), NoMemory> {
    // The first read is idle, so that the first look is made before a message came.
    let parks = [Look::Go, Look::Go, Look::Park];
    let overs = [Look::Go, Look::Over];
    let rows: [(&[u8], &[Look], LegEnd, usize, u64); 10] = [
        (
            b"Q\0\0\0\x061\0S\0\0\0\x04Q\0",
            &parks,
            LegEnd::Parked,
            12,
            2,
        ),
        (b"Q\0\0\0\x061\0S\0\0\0\x04", &overs, LegEnd::Over, 7, 1),
        (b"S\0\0\0\x04", &[Look::Park], LegEnd::Parked, 0, 0),
        (b"", &[], LegEnd::Ended, 0, 0),
        (b"Q\0\0\0\x061\0", &[], LegEnd::Ended, 7, 1),
        (b"Q\0\0", &[], LegEnd::Cut, 0, 0),
        (b"S\0\0\0\x04Q\0\0\0\x061", &[], LegEnd::Cut, 5, 1),
        (b"d\x01\0\0\x05", &[], LegEnd::Bad(16_777_221), 0, 0),
        (b"S\0\0\0\x04d\0\0\0\x03d", &[], LegEnd::Bad(3), 5, 1),
        (b"X\0\0\0\x04S\0\0\0\x04", &[], LegEnd::Terminated, 5, 0),
    ];
    for (bytes, answers, why, written, qs) in rows {
        let given = Given {
            bytes,
            idle: &[1, 3],
            failing_reads: &[],
            failing_writes: &[],
            answers,
        };
        let want = Passed {
            why,
            written: Some(written),
            qs,
        };
        assert_eq!(rt; tried(&rt, rt.alloc(), given)?, want);
    }
    Ok(())
}

#[test]
fn a_read_or_a_write_fails(rt: HostRuntime) -> Result<(), NoMemory> {
    // Two messages, which take four reads, the third of them idle, and four writes of at most four bytes.
    let bytes = b"Q\0\0\0\x061\0d\0\0\0\x06ab";
    let rows: [(u64, u64, usize, LegEnd); 11] = [
        (1, 0, 0, LegEnd::ReadFault),
        (2, 0, 0, LegEnd::ReadFault),
        (3, 0, 7, LegEnd::ReadFault),
        (4, 0, 7, LegEnd::ReadFault),
        (5, 0, 14, LegEnd::ReadFault),
        (6, 0, 14, LegEnd::Ended),
        (0, 1, 0, LegEnd::WriteFault),
        (0, 2, 4, LegEnd::WriteFault),
        (0, 3, 7, LegEnd::WriteFault),
        (0, 4, 11, LegEnd::WriteFault),
        (0, 5, 14, LegEnd::Ended),
    ];
    for (read, write, written, why) in rows {
        let given = Given {
            bytes,
            idle: &[3],
            failing_reads: &[read],
            failing_writes: &[write],
            answers: &[],
        };
        let passed = tried(&rt, rt.alloc(), given)?;
        assert_eq!(rt;
            (passed.why, passed.written),
            (why, Some(written)),
            "at {read}, {write}"
        );
    }
    Ok(())
}
