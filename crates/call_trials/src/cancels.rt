//! A request to cancel, on a connection of its own.

use crate::hubs::{CLIENT, Pods, TENANT, row};
use crate::pods::{dialer, is_sent};
use crate::served::{Outcome, client_of, heard_by, unserved};
use crate::told::Told;
use memory_links::CountBoard;
use pgw_messages::PodKey;
use proxy_hub::HubCommand;
use proxy_outside::{Addr, Place, PodNo, SessionNo};
use staged_hub::{StagedCommand, StagedHub};
use std::alloc::Global;
use std::sync::Wait;
use std::test::*;
use std::thread::Threads;

/// A request with the key 1, 16909060, and one with another secret.
const CANCEL: &[u8] = b"\0\0\0\x10\x04\xd2\x16\x2e\0\0\0\x01\x01\x02\x03\x04";

const OTHER_CANCEL: &[u8] = b"\0\0\0\x10\x04\xd2\x16\x2e\0\0\0\x01\0\0\0\0";

/// What the pod is sent: its own key.
const SENT: &[u8] = b"\0\0\0\x10\x04\xd2\x16\x2e\0\0\0\x05\0\0\0\x06";

const POD: Place = Place {
    pod: PodNo(1),
    addr: Addr::V4(1),
    port: 26_257,
};

fn stage(staged: &mut Vec<StagedCommand>, command: HubCommand) -> Result<(), Fail> {
    Ok(staged.push(StagedCommand { before: 1, command })?)
}

/// A hub with one session of this client's, at a pod whose key is 5, 6.
fn hub(alloc: Global) -> Result<StagedHub, Fail> {
    let session = SessionNo(1);
    let mut staged = Vec::new(alloc);
    let pods = Pods {
        before: 1,
        count: 1,
        draining: 0,
    };
    stage(&mut staged, HubCommand::Update(row(alloc, 1, pods)?))?;
    let admit = HubCommand::Admit {
        addr: CLIENT,
        tenant: TENANT,
        now: 100,
    };
    stage(&mut staged, admit)?;
    let give = HubCommand::GiveKey {
        session,
        addr: CLIENT,
        word: 16_909_060,
    };
    stage(&mut staged, give)?;
    let assign = HubCommand::Assign {
        session,
        place: POD,
    };
    stage(&mut staged, assign)?;
    let key = PodKey {
        process: 5,
        secret: 6,
    };
    stage(&mut staged, HubCommand::Bind { session, key })?;
    Ok(StagedHub::make(alloc, staged)?)
}

/// What it came to, whether the client heard nothing, the dials, and whether the pod was sent this.
fn tried<R: Wait + Threads + Sync>(
    rt: &R,
    alloc: Global,
    request: &[u8],
    sent: Option<&[u8]>,
) -> Result<(Outcome, bool, usize, bool), Fail> {
    let mut dialer = dialer(alloc, &[b""])?;
    let mut hub = hub(alloc)?;
    let mut board = CountBoard::make(alloc, &[])?;
    let (outcome, heard) = heard_by(
        rt,
        alloc,
        client_of(request),
        b"",
        &mut dialer,
        &mut hub,
        &mut board,
    )?;
    Ok((outcome, heard, dialer.dials().len(), is_sent(&dialer, sent)))
}

#[test]
fn the_pod_is_sent_its_own_key(rt: HostRuntime) -> Result<(), Fail> {
    let rows: [(&[u8], usize, Option<&[u8]>); 2] = [
        (CANCEL, 1, Some(SENT)),
        (OTHER_CANCEL, 0, None),
    ];
    for (request, dials, sent) in rows {
        let seen = tried(&rt, rt.alloc(), request, sent)?;
        assert_eq!(rt; seen, (unserved(Told::CancelDone), true, dials, true));
    }
    Ok(())
}
