//! A hub at a desk that takes no more commands.

use crate::hubs::{Pods, row};
use crate::pods::dialer;
use crate::served::{Outcome, client_of, heard_by, unserved};
use crate::texts::STARTUP;
use crate::told::Told;
use access_lists::Lists;
use counted_desk::Desk;
use memory_links::CountBoard;
use proxy_hub::{DeskPort, Hub, HubCommand, HubPort};
use std::alloc::Global;
use std::sync::Wait;
use std::test::*;
use std::thread::Threads;

const TOLD_FULL: &[u8] = b"E\0\0\0\x30SFATAL\0VFATAL\0C53300\0Mtoo many connections\0\0";

/// Tells the hub of the tenant's pod: two commands. Then serves a client.
fn loaded<R: Wait + Threads + Sync, H: HubPort>(
    rt: &R,
    alloc: Global,
    hub: &mut H,
) -> Result<(Outcome, bool), Fail> {
    let pods = Pods {
        before: 1,
        count: 1,
        draining: 0,
    };
    let row = row(alloc, 1, pods)?;
    let _lists = hub.ask(rt, HubCommand::SetLists(Lists::new(alloc)));
    let _update = hub.ask(rt, HubCommand::Update(row));
    let mut dialer = dialer(alloc, &[])?;
    let mut board = CountBoard::make(alloc, &[])?;
    Ok(heard_by(
        rt,
        alloc,
        client_of(STARTUP),
        TOLD_FULL,
        &mut dialer,
        hub,
        &mut board,
    )?)
}

fn tried<R: Wait + Threads + Sync>(rt: &R, alloc: Global) -> Result<(Outcome, bool), Fail> {
    let (desk, seat) = Desk::<Hub>::make(alloc, 2)?;
    let mut port = DeskPort::make(&desk, seat);
    let seen = loaded(rt, alloc, &mut port);
    drop(port);
    drop(desk);
    seen
}

#[test]
fn a_full_journal_admits_nobody(rt: HostRuntime) -> Result<(), Fail> {
    assert_eq!(rt;
        tried(&rt, rt.alloc())?,
        (unserved(Told::JournalFull(2)), true)
    );
    Ok(())
}
