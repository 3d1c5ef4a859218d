//! Sessions that are to be moved from a pod whose words are written down before.

use crate::hubs::{Pods, hub_of};
use crate::pods::{dialer, is_sent};
use crate::served::{LIMITS, Outcome, first, outcome_of, serve};
use crate::texts::{HEARD_ONE, STARTUP, STARTUP_AND_QUERY};
use crate::told::{Left, Told};
use memory_links::{CountBoard, GatedPiece, GatedSource, WatchedSink, gated};
use pgw_frames::{Bytes, NoMemory};
use std::alloc::Global;
use std::sync::Wait;
use std::test::*;
use std::thread::Threads;

/// Before its seventh ask the session's pod is draining, and another runs.
const ROWS: [Pods; 2] = [
    Pods {
        before: 1,
        count: 1,
        draining: 0,
    },
    Pods {
        before: 7,
        count: 2,
        draining: 1,
    },
];

/// The old pod's greeting, and its reply to a Query.
const GREETING_AND_REPLY: &[u8] = b"R\0\0\0\x08\0\0\0\0K\0\0\0\x0c\0\0\0\x05\0\0\0\x06Z\0\0\0\x05I\
    C\0\0\0\x0cTALLY 1\0Z\0\0\0\x05I";

/// What the old pod is sent.
const SENT: &[u8] = b"\0\0\0\x20\0\x03\0\0user\0koala\0database\0db\0\0Q\0\0\0\x061\0\
    Q\0\0\0\x40SHOW TRANSFER STATE WITH '00000000010203040000000001020304'\0";

/// What it replies: columns, a row with this key or with another one, a tag and a ready.
const COLUMNS: &[u8] =
    b"T\0\0\0\x93\0\x04error\0\0\0\0\0\0\0\0\0\0\x19\xff\xff\xff\xff\xff\xff\0\0session_state_base64\0\0\0\0\0\0\0\0\0\0\x19\xff\xff\xff\xff\xff\xff\0\0session_revival_token_base64\0\0\0\0\0\0\0\0\0\0\x19\xff\xff\xff\xff\xff\xff\0\0transfer_key\0\0\0\0\0\0\0\0\0\0\x19\xff\xff\xff\xff\xff\xff\0\0";

const STATE: &[u8] =
    b"D\0\0\0\x3e\0\x04\0\0\0\0\0\0\0\x04AQ==\0\0\0\x04dG9r\0\0\0\x2000000000010203040000000001020304";

const OTHER_STATE: &[u8] =
    b"D\0\0\0\x3e\0\x04\0\0\0\0\0\0\0\x04AQ==\0\0\0\x04dG9r\0\0\0\x200000000000000001000000000000000a";

const TAG_AND_READY: &[u8] = b"C\0\0\0\x1aSHOW TRANSFER STATE 1\0Z\0\0\0\x05I";

/// What new pods say: a greeting and the reply to the restore Query; or an error.
const REVIVES: &[u8] = b"R\0\0\0\x08\0\0\0\0K\0\0\0\x0c\0\0\0\x07\0\0\0\x09Z\0\0\0\x05I\
    T\0\0\0\x3a\0\x01crdb_internal.deserialize_session\0\0\0\0\0\0\0\0\0\0\x10\0\x01\xff\xff\xff\xff\0\0\
    D\0\0\0\x0b\0\x01\0\0\0\x01tC\0\0\0\x0dSELECT 1\0Z\0\0\0\x05I";

const REFUSES: &[u8] = b"E\0\0\0\x13SFATAL\0C28000\0\0";

/// The old pod's words behind its reply, and the new pod's, where one answers.
#[derive(Clone, Copy)]
struct Row<'a> {
    reply: &'a [&'a [u8]],
    new: Option<&'a [u8]>,
}

/// A client that says no more than its startup packet and a Query.
fn silent(alloc: Global) -> Result<(GatedSource, WatchedSink), NoMemory> {
    let mut pieces = Vec::new(alloc);
    for (after, bytes) in [(0, STARTUP_AND_QUERY), (u64::MAX, STARTUP)] {
        let bytes = Bytes::of(alloc, bytes)?;
        pieces.push(GatedPiece { after, bytes })?;
    }
    gated(alloc, pieces, &[])
}

fn old_pod(alloc: Global, reply: &[&[u8]]) -> Result<Bytes, NoMemory> {
    let mut bytes = Bytes::of(alloc, GREETING_AND_REPLY)?;
    for piece in reply {
        bytes.extend(piece)?;
    }
    Ok(bytes)
}

/// What it came to, whether the client heard the greeting and the reply alone, what the old pod was sent, and the dials.
fn tried<R: Wait + Threads + Sync>(
    rt: &R,
    alloc: Global,
    row: Row,
) -> Result<(Outcome, bool, bool, usize), Fail> {
    let old = old_pod(alloc, row.reply)?;
    let mut dialer = match row.new {
        Some(new) => dialer(alloc, &[old.as_slice(), new])?,
        None => dialer(alloc, &[old.as_slice()])?,
    };
    let mut hub = hub_of(alloc, &ROWS)?;
    let mut board = CountBoard::make(alloc, &[1])?;
    let (source, sink) = silent(alloc)?;
    let ended = serve(
        rt,
        alloc,
        source,
        sink,
        &mut dialer,
        &mut hub,
        &mut board,
        LIMITS,
    )?;
    let heard = ended.client_out.contents() == HEARD_ONE;
    let sent = is_sent(&dialer, Some(SENT));
    Ok((outcome_of(&ended), heard, sent, dialer.dials().len()))
}

#[test]
fn by_what_the_pods_say(rt: HostRuntime) -> Result<(), Fail> {
    let cut = |left| Told::ExchangeCut(left);
    let whole: [&[u8]; 3] = [COLUMNS, STATE, TAG_AND_READY];
    let rows: [(&[&[u8]], Option<&[u8]>, Told, u64, usize); 7] = [
        (
            &[COLUMNS, OTHER_STATE],
            None,
            cut(Left::Unexpected(b'D')),
            0,
            1,
        ),
        (
            &[COLUMNS, TAG_AND_READY],
            None,
            cut(Left::Unexpected(b'C')),
            0,
            1,
        ),
        (&[COLUMNS], None, cut(Left::Ended), 0, 1),
        (&[b"T\0\0\0\x03"], None, cut(Left::BadLength(3)), 0, 1),
        (&whole, None, Told::PodEnded, 0, 2),
        (&whole, Some(REFUSES), Told::PodEnded, 0, 2),
        (&whole, Some(REVIVES), Told::PodEnded, 1, 2),
    ];
    for (reply, new, told, moves, dials) in rows {
        let seen = tried(&rt, rt.alloc(), Row { reply, new })?;
        assert_eq!(rt; seen, (first(told, moves), true, true, dials));
    }
    Ok(())
}
