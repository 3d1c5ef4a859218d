//! What a pod replies to what it is sent.

use link_io::{read_exact, write_all};
use pgw_frames::NoMemory;
use pod_dialer::PodDialer;
use proxy_links::{Dialed, Dialer};
use proxy_outside::{Addr, Place, PodNo, Sink, Source, Took};
use std::alloc::Global;
use std::sync::Wait;
use std::test::*;
use tally_session::TallySession;

pub(crate) fn place_of(number: u32) -> Place {
    Place {
        pod: PodNo(number),
        addr: Addr::V4(1),
        port: 1,
    }
}

/// Sends bytes, and says whether just these replies are ready then.
pub(crate) fn replies<K: Sink, R: Source>(
    tx: &mut K,
    rx: &mut R,
    sent: &[u8],
    want: &[u8],
) -> bool {
    let mut buf = [0u8; 64];
    let count = want.len().min(64);
    if !write_all(tx, sent) || read_exact(rx, &mut buf[..count], 0, 1).is_err() {
        return false;
    }
    &buf[..count] == want && rx.read(&mut buf) == Took::Idle
}

fn talked<R: Wait + Sync>(
    dialer: &mut PodDialer<R, TallySession>,
    sent: &[u8],
    want: &[u8],
) -> bool {
    match dialer.dial(place_of(1)) {
        Dialed::Link(tx, rx) => {
            let mut tx = tx;
            let mut rx = rx;
            replies(&mut tx, &mut rx, sent, want)
        }
        Dialed::Failed => false,
    }
}

#[test]
fn packets_and_messages(rt: HostRuntime) -> Result<(), NoMemory> {
    let rows: [(&[u8], &[u8]); 7] = [
        (
            b"\0\0\0\x10\0\x03\0\0user\0u\0\0",
            b"R\0\0\0\x08\0\0\0\0K\0\0\0\x0c\0\0\0\0\0\0\0\0Z\0\0\0\x05I",
        ),
        (
            b"\0\0\0\x10\0\x03\0\0user\0u\0\0Q\0\0\0\x061\0Q\0\0",
            b"R\0\0\0\x08\0\0\0\0K\0\0\0\x0c\0\0\0\0\0\0\0\0Z\0\0\0\x05IC\0\0\0\x0cTALLY 1\0Z\0\0\0\x05I",
        ),
        (
            b"\0\0\0\x10\0\x03\0\0user\0u\0\0Q\0\0\0\x03S\0\0\0\x04",
            b"R\0\0\0\x08\0\0\0\0K\0\0\0\x0c\0\0\0\0\0\0\0\0Z\0\0\0\x05I",
        ),
        (b"\0\0\0\x10\0\x03\0\0user\0u\0", b""),
        // A request for encryption, a packet without its code, and one of 11,900,001 bytes.
        (b"\0\0\0\x08\x04\xd2\x16\x2f", b""),
        (b"\0\0\0\x07\0\x03\0\0user\0u\0\0", b""),
        (b"\0\xb5\x94\x61\0\x03\0\0user\0u\0\0", b""),
    ];
    let mut dialer = PodDialer::make(&rt, rt.alloc(), 5)?;
    for (sent, want) in rows {
        assert!(rt; talked(&mut dialer, sent, want), "to {sent:?}");
    }
    assert_eq!(rt; dialer.dials().len(), 7);
    Ok(())
}

/// Dials, and hangs up at once.
fn hangs_up<R: Wait + Sync>(dialer: &mut PodDialer<R, TallySession>) -> bool {
    match dialer.dial(place_of(1)) {
        Dialed::Link(tx, rx) => {
            dialer.hang_up(tx, rx);
            true
        }
        Dialed::Failed => false,
    }
}

#[test]
fn a_link_that_is_hung_up_is_kept(rt: HostRuntime) -> Result<(), NoMemory> {
    let mut dialer = PodDialer::make(&rt, rt.alloc(), 5)?;
    assert!(rt; hangs_up(&mut dialer));
    assert_eq!(rt; dialer.hung_up().len(), 1);
    Ok(())
}
