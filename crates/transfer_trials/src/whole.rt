//! Transfers that go their way, those that are refused, and links that fail.

use crate::pods::{Pod, Then, new_pod, old_reply, pod_of};
use crate::trial::{Told, Trial, Why, tried};
use pgw_frames::NoMemory;
use std::test::*;

/// The row of a session that isn't to be moved now.
const REASON: &[u8] =
    b"D\0\0\0\x38\0\x04\0\0\0\x02no\0\0\0\0\0\0\0\0\0\0\0\x200000000000000001000000000000000a";

/// A ReadyForQuery in a transaction block.
const IN_BLOCK: &[u8] = b"Z\0\0\0\x05T";

/// A ParameterStatus.
const STATUS: &[u8] = b"S\0\0\0\x08a\0b\0";

#[test]
fn the_new_pod_answers(rt: HostRuntime) -> Result<(), NoMemory> {
    let reply = old_reply();
    let messages = new_pod();
    let [auth, _, ready, columns, row, tag, end] = messages;
    let no_key = [auth, STATUS, ready, columns, row, tag, end];
    // The reply to the restore Query begins at the 29th byte that the new pod sends.
    let rows: [(&[&'static [u8]], &[u64], &[u64], Told, Option<usize>); 7] = [
        (&messages, &[], &[], Told::Moved(7, 9), None),
        (&messages, &[1], &[], Told::Moved(7, 9), None),
        (&messages, &[40], &[], Told::Moved(7, 9), None),
        (&no_key, &[], &[], Told::MovedWithoutKey, None),
        (
            &messages,
            &[1, 40],
            &[],
            Told::NewCut(Why::Late(2)),
            Some(126),
        ),
        (&messages, &[], &[1], Told::NewCut(Why::WriteFault), Some(0)),
        (
            &messages,
            &[],
            &[2],
            Told::NewCut(Why::WriteFault),
            Some(55),
        ),
    ];
    for (messages, idle, failing_writes, told, sent) in rows {
        let new = Pod {
            messages,
            count: 7,
            then: Then::Other,
            idle,
            failing_writes,
        };
        let trial = tried(rt.alloc(), pod_of(&reply, 4, Then::Other), Some(new), 10)?;
        let want = Trial {
            told,
            asked: true,
            dials: 1,
            sent,
            next: Some(b'1'),
        };
        assert_eq!(rt; trial, want);
    }
    Ok(())
}

#[test]
fn there_is_no_link(rt: HostRuntime) -> Result<(), NoMemory> {
    let [columns, row, tag, ready] = old_reply();
    // The row of another key is refused where it stands; a reason is told whatever the status.
    let rows: [(u64, [&'static [u8]; 4], &[u64], Told, usize, u8); 6] = [
        (
            10,
            [columns, row, tag, ready],
            &[],
            Told::DialFault,
            1,
            b'1',
        ),
        (
            11,
            [columns, row, tag, ready],
            &[],
            Told::OldCut(Why::Unexpected(b'D')),
            0,
            b'C',
        ),
        (
            10,
            [columns, REASON, tag, ready],
            &[],
            Told::Refused,
            0,
            b'1',
        ),
        (
            10,
            [columns, REASON, tag, IN_BLOCK],
            &[],
            Told::Refused,
            0,
            b'1',
        ),
        (
            10,
            [columns, row, tag, IN_BLOCK],
            &[],
            Told::OldCut(Why::Unexpected(b'Z')),
            0,
            b'1',
        ),
        (
            10,
            [columns, row, tag, ready],
            &[1],
            Told::OldCut(Why::WriteFault),
            0,
            b'T',
        ),
    ];
    for (low, messages, failing_writes, told, dials, next) in rows {
        let old = Pod {
            messages: &messages,
            count: 4,
            then: Then::Other,
            idle: &[],
            failing_writes,
        };
        let trial = tried(rt.alloc(), old, None, low)?;
        assert_eq!(rt; (trial.told, trial.dials, trial.sent), (told, dials, None));
        assert_eq!(rt; trial.next, Some(next));
    }
    Ok(())
}
