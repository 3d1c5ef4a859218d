ghost use Rattle.atomic_board.specs.Boards.{is_home};

use super::*;
use atomic_board::{AtomicBoard, Bell};
use counted_desk::Desk;
use pgw_frames::NoMemory;
use pod_drain::Ringer;
use proxy_hub::{DeskPort, Hub, HubCommand, HubPort};
use proxy_links::{BackMarks, FrontMarks, Look, Marks};
use proxy_outside::{Addr, Place, PodNo, SessionNo, TenantId};
use std::alloc::Global;
use std::sync::Wait;
use std::test::*;
use tenant_directory::{Pod, PodState, TenantRow};

const TENANT: TenantId = TenantId(7);

/// What a board tells its two legs.
type Looks = (Look, Look);

/// What the legs are told behind a ring of this session.
fn looks_behind<R: Wait>(rt: &R, bells: &Bells, board: &mut AtomicBoard, session: u32) -> Looks
    requires { is_home board.old }
    ensures { is_home board.new }
{
    let (mut front, mut back) = board.ends();
    BellRinger::new(rt, bells).ring(SessionNo(session));
    let looks = (front.look(0), back.look(0));
    board.back(front, back);
    looks
}

/// A tenant with one pod.
fn row(alloc: Global) -> Result<TenantRow, NoMemory> {
    let place = Place {
        pod: PodNo(1),
        addr: Addr::V4(0x0a00_0001),
        port: 1,
    };
    let pod = Pod {
        place,
        state: PodState::Running,
    };
    match TenantRow::of(alloc, TENANT, 1, &[pod]) {
        Ok(row) => Ok(row),
        Err(_) => Err(NoMemory),
    }
}

/// A client comes, is rung, and goes.
fn course<'a, R: Wait, P: HubPort>(
    rt: &R,
    bells: &Bells,
    board: &mut AtomicBoard,
    hub: &mut BellHub<'a, P>,
) -> [Looks; 4]
    requires { is_home board.old }
{
    let before = looks_behind(rt, bells, board, 1);
    let admit = HubCommand::Admit {
        addr: Addr::V4(1),
        tenant: TENANT,
        now: 0,
    };
    drop(hub.ask(rt, admit));
    let another = looks_behind(rt, bells, board, 2);
    let rung = looks_behind(rt, bells, board, 1);
    let release = HubCommand::Release {
        session: SessionNo(1),
    };
    drop(hub.ask(rt, release));
    [before, another, rung, looks_behind(rt, bells, board, 1)]
}

fn told<R: Wait>(rt: &R, alloc: Global) -> Result<[Looks; 4], NoMemory> {
    let row = row(alloc)?;
    let bells = Bells::new(alloc);
    let (mut board, bell) = AtomicBoard::make(alloc)?;
    let (desk, seat) = Desk::<Hub>::make(alloc, 10)?;
    let mut port = DeskPort::make(&desk, seat);
    drop(port.ask(rt, HubCommand::Update(row)));
    let mut hub = BellHub::make(port, &bells, bell);
    let looks = course(rt, &bells, &mut board, &mut hub);
    drop(hub.end());
    drop(desk);
    Ok(looks)
}

#[test]
fn a_session_is_rung_from_its_admission_to_its_release(rt: HostRuntime) {
    let go = (Look::Go, Look::Go);
    let want = [go, go, (Look::Park, Look::Park), go];
    assert_eq!(rt; told(&rt, rt.alloc()), Ok(want));
}
