use super::*;
use counted_desk::Desk;
use pgw_frames::NoMemory;
use proxy_config::{Settings, read_settings};
use proxy_hub::{DeskPort, Hub, HubCommand, HubFault, HubPort};
use proxy_outside::{Addr, Place, PodNo, SessionNo, TenantId};
use std::alloc::Global;
use std::sync::Wait;
use std::test::*;

const BEFORE: &str = r#"
listen = "127.0.0.1:26257"
[[tenant]]
id = 7
version = 1
pod = [{ number = 1, place = "10.0.0.1:1", state = "running" }]
"#;

const AFTER: &str = r#"
listen = "127.0.0.1:26257"
[[tenant]]
id = 7
version = 2
pod = [
    { number = 1, place = "10.0.0.1:1", state = "draining" },
    { number = 2, place = "10.0.0.1:2", state = "running" },
]
"#;

/// The answer of a round, how many tenants are watched then, and how many sessions were rung so far.
type Told = (Result<u64, DrainFault>, usize, usize);

fn round<R: Wait, P: HubPort>(
    rt: &R,
    alloc: Global,
    fresh: Option<&Settings>,
    watch: &mut Watch,
    port: &mut P,
    bells: &mut ListRinger,
) -> Result<Told, NoMemory> {
    let answer = drain_round(rt, alloc, fresh, watch, port, bells);
    let watched = watch.tenants(alloc)?.len();
    Ok((answer, watched, bells.rung().len()))
}

fn assign<R: Wait, P: HubPort>(rt: &R, port: &mut P, pod: u32) -> bool {
    let place = Place {
        pod: PodNo(pod),
        addr: Addr::V4(0x0a00_0001),
        port: 1,
    };
    let session = SessionNo(1);
    port.ask(rt, HubCommand::Assign { session, place }).is_ok()
}

/// The first pod serves a session, drains, and is left.
fn rounds<R: Wait, P: HubPort>(
    rt: &R,
    alloc: Global,
    before: &Settings,
    after: &Settings,
    port: &mut P,
) -> Result<[Told; 5], NoMemory> {
    let mut watch = Watch::new(alloc);
    let mut bells = ListRinger::make(alloc, 1)?;
    let first = round(rt, alloc, Some(before), &mut watch, port, &mut bells)?;
    let admit = HubCommand::Admit {
        addr: Addr::V4(1),
        tenant: TenantId(7),
        now: 0,
    };
    let comes_in = port.ask(rt, admit).is_ok() && assign(rt, port, 1);
    let second = round(rt, alloc, Some(after), &mut watch, port, &mut bells)?;
    let moves = comes_in && assign(rt, port, 2);
    let third = round(rt, alloc, None, &mut watch, port, &mut bells)?;
    let fourth = round(rt, alloc, None, &mut watch, port, &mut bells)?;
    let fifth = round(rt, alloc, Some(after), &mut watch, port, &mut bells)?;
    if !moves {
        return Err(NoMemory);
    }
    Ok([first, second, third, fourth, fifth])
}

fn told(alloc: Global, rt: &impl Wait) -> Result<[Told; 5], NoMemory> {
    let Ok(before) = read_settings(alloc, BEFORE.as_bytes()) else {
        return Err(NoMemory);
    };
    let Ok(after) = read_settings(alloc, AFTER.as_bytes()) else {
        return Err(NoMemory);
    };
    let (desk, seat) = Desk::<Hub>::make(alloc, 10)?;
    let mut port = DeskPort::make(&desk, seat);
    let told = rounds(rt, alloc, &before, &after, &mut port);
    drop(port);
    drop(desk);
    told
}

#[test]
fn a_session_is_rung_until_it_moved(rt: HostRuntime) {
    let full = Err(DrainFault::Hub(HubFault::JournalFull(10)));
    // Ten commands are all that the desk takes, so that the fourth round can have asked nothing.
    let want = [
        (Ok(0), 0, 0),
        (Ok(1), 1, 1),
        (Ok(0), 0, 1),
        (Ok(0), 0, 1),
        (full, 0, 1),
    ];
    assert_eq!(rt; told(rt.alloc(), &rt), Ok(want));
}
