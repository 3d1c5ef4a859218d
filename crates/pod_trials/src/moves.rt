//! A session that is moved from one pod to another.

use crate::talk::{place_of, replies};
use link_transfer::{Transferred, transfer};
use pgw_frames::NoMemory;
use pgw_messages::{Params, PodKey};
use pod_dialer::{PodDialer, PodSink, PodSource};
use proxy_links::{Dialed, Dialer};
use session_model::TransferKey;
use std::alloc::Global;
use std::sync::Wait;
use std::test::*;
use tally_session::TallySession;

/// The startup packet of user `u`, and a Query.
const BEFORE: &[u8] = b"\0\0\0\x10\0\x03\0\0user\0u\0\0Q\0\0\0\x061\0";

const GREETING_AND_REPLY: &[u8] =
    b"R\0\0\0\x08\0\0\0\0K\0\0\0\x0c\0\0\0\0\0\0\0\0Z\0\0\0\x05IC\0\0\0\x0cTALLY 1\0Z\0\0\0\x05I";

/// Whether it is the key that a tally greets with.
fn is_the_tally_key(key: Option<PodKey>) -> bool {
    match key {
        Some(key) => key.process == 0 && key.secret == 0,
        None => false,
    }
}

/// Moves the session behind these halves, and says whether it goes on behind the new ones, with the key that the
/// greeting has.
fn moves<'a, R: Wait + Sync>(
    alloc: Global,
    dialer: &mut PodDialer<'a, R, TallySession>,
    tx: &mut PodSink<'a, R, TallySession>,
    rx: &mut PodSource<'a, R, TallySession>,
    params: &Params,
) -> bool {
    if params.value("crdb:session_revival_token_base64").is_some() {
        return false;
    }
    let key = TransferKey { high: 1, low: 10 };
    match transfer(alloc, dialer, tx, rx, place_of(2), params, &key, 2) {
        Transferred::Moved(tx, rx, key) => {
            let mut tx = tx;
            let mut rx = rx;
            let goes_on = replies(
                &mut tx,
                &mut rx,
                b"Q\0\0\0\x062\0",
                b"C\0\0\0\x0cTALLY 2\0Z\0\0\0\x05I",
            );
            goes_on && is_the_tally_key(key)
        }
        _ => false,
    }
}

fn moved<'a, R: Wait + Sync>(
    alloc: Global,
    dialer: &mut PodDialer<'a, R, TallySession>,
    params: &Params,
) -> bool {
    match dialer.dial(place_of(1)) {
        Dialed::Link(tx, rx) => {
            let mut tx = tx;
            let mut rx = rx;
            let is_ready = replies(&mut tx, &mut rx, BEFORE, GREETING_AND_REPLY);
            is_ready && moves(alloc, dialer, &mut tx, &mut rx, params)
        }
        Dialed::Failed => false,
    }
}

#[test]
fn it_goes_on_there(rt: HostRuntime) -> Result<(), NoMemory> {
    let alloc = rt.alloc();
    let mut params = Params::new(alloc);
    params.put("user", "u")?;
    let mut dialer = PodDialer::make(&rt, alloc, 4096)?;
    assert!(rt; moved(alloc, &mut dialer, &params));
    assert_eq!(rt; dialer.dials().len(), 2);
    Ok(())
}
