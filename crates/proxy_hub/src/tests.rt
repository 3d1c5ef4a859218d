use super::*;
use access_lists::{Deny, Lists, Who, read_net};
use pgw_frames::{NoMemory, Text};
use pgw_messages::PodKey;
use pod_balancer::Move;
use proxy_outside::{Addr, ClientKey, Machine, Place, PodNo, SessionNo, TenantId};
use std::alloc::Global;
use std::process::Abort;
use std::test::*;
use tenant_directory::{Pod, PodState, RowFault, TenantRow};

pub(crate) const CLIENT: Addr = Addr::V4(0x0a01_0203);

pub(crate) const TENANT: TenantId = TenantId(7);

fn place(pod: u32) -> Place {
    Place {
        pod: PodNo(pod),
        addr: Addr::V4(pod),
        port: 26_257,
    }
}

/// A row of pods, the first ones of which drain.
pub(crate) fn row(
    alloc: Global,
    version: u64,
    draining: u32,
    pods: u32,
) -> Result<TenantRow, RowFault> {
    let mut all = Vec::new(alloc);
    for pod in 1..=pods {
        let state = if pod <= draining {
            PodState::Draining
        } else {
            PodState::Running
        };
        all.push(Pod {
            place: place(pod),
            state,
        })?;
    }
    TenantRow::of(alloc, TENANT, version, all.as_slice())
}

/// What a reply says, of moves only how many and the first one, of a pod's key the secret.
#[derive(Clone, Copy, Debug, PartialEq, Eq)]
enum Told {
    Done,
    Stale(u64),
    Admitted(SessionNo),
    No(Refusal),
    Key(ClientKey),
    Picked(Place),
    MoveTo(Place),
    Stay,
    Moves(usize, Option<Move>),
    Found(Place, u32),
    NoKey,
    NoSession,
}

fn gist(reply: &HubReply) -> Told {
    match reply {
        HubReply::Done => Told::Done,
        HubReply::Stale(version) => Told::Stale(*version),
        HubReply::Admitted(session) => Told::Admitted(*session),
        HubReply::No(why) => Told::No(*why),
        HubReply::Key(key) => Told::Key(*key),
        HubReply::Picked(place) => Told::Picked(*place),
        HubReply::MoveTo(place) => Told::MoveTo(*place),
        HubReply::Stay => Told::Stay,
        HubReply::Moves(moves) => Told::Moves(moves.len(), moves.get(0).copied()),
        HubReply::Found(place, key) => Told::Found(*place, key.secret),
        HubReply::NoKey => Told::NoKey,
        HubReply::NoSession => Told::NoSession,
    }
}

/// Asks, and gives the command up.
fn ask(hub: &mut Hub, command: HubCommand) -> Result<Told, NoMemory> {
    let reply = hub.step(&command);
    drop(command);
    let reply = reply?;
    let told = gist(&reply);
    drop(reply);
    Ok(told)
}

fn update(hub: &mut Hub, row: TenantRow) -> Result<Told, NoMemory> {
    ask(hub, HubCommand::Update(row))
}

fn admit(hub: &mut Hub, now: u64) -> Result<Told, NoMemory> {
    ask(
        hub,
        HubCommand::Admit {
            addr: CLIENT,
            tenant: TENANT,
            now,
        },
    )
}

fn pick(hub: &mut Hub, first: Option<PodNo>) -> Result<Told, NoMemory> {
    ask(
        hub,
        HubCommand::Pick {
            tenant: TENANT,
            first,
            second: None,
        },
    )
}

fn target(hub: &mut Hub, session: u32) -> Result<Told, NoMemory> {
    ask(
        hub,
        HubCommand::Target {
            session: SessionNo(session),
        },
    )
}

fn assign(hub: &mut Hub, session: u32, pod: u32) -> Result<Told, NoMemory> {
    ask(
        hub,
        HubCommand::Assign {
            session: SessionNo(session),
            place: place(pod),
        },
    )
}

const KEY: ClientKey = ClientKey {
    process: 1,
    secret: 9,
};

fn find(hub: &mut Hub) -> Result<Told, NoMemory> {
    ask(
        hub,
        HubCommand::Find {
            key: KEY,
            addr: CLIENT,
        },
    )
}

/// Two sessions come in, and the first one stands at a pod, with a key.
fn two_come_in<R: Abort>(rt: &R, alloc: Global, hub: &mut Hub) -> Result<(), Fail> {
    assert_eq!(rt; admit(hub, 0)?, Told::No(Refusal::NoTenant));
    assert_eq!(rt; update(hub, row(alloc, 1, 0, 1)?)?, Told::Done);
    assert_eq!(rt; update(hub, row(alloc, 1, 0, 1)?)?, Told::Stale(1));
    assert_eq!(rt; admit(hub, 0)?, Told::Admitted(SessionNo(1)));
    assert_eq!(rt; admit(hub, 0)?, Told::Admitted(SessionNo(2)));
    let give = HubCommand::GiveKey {
        session: SessionNo(1),
        addr: CLIENT,
        word: 9,
    };
    assert_eq!(rt; ask(hub, give)?, Told::Key(KEY));
    assert_eq!(rt; pick(hub, None)?, Told::Picked(place(1)));
    assert_eq!(rt; pick(hub, Some(PodNo(1)))?, Told::No(Refusal::NoPod));
    assert_eq!(rt; assign(hub, 1, 1)?, Told::Done);
    let bind = HubCommand::Bind {
        session: SessionNo(1),
        key: PodKey {
            process: 70,
            secret: 71,
        },
    };
    assert_eq!(rt; ask(hub, bind)?, Told::Done);
    assert_eq!(rt; target(hub, 1)?, Told::Stay);
    assert_eq!(rt; target(hub, 2)?, Told::Stay);
    Ok(())
}

/// The pod drains, and the first session has another one as its target; then it ends.
fn the_first_moves<R: Abort>(rt: &R, alloc: Global, hub: &mut Hub) -> Result<(), Fail> {
    assert_eq!(rt; update(hub, row(alloc, 2, 1, 2)?)?, Told::Done);
    let plan = HubCommand::Plan { tenant: TENANT };
    let only = Move {
        session: SessionNo(1),
        from: PodNo(1),
        to: PodNo(2),
    };
    assert_eq!(rt; ask(hub, plan)?, Told::Moves(1, Some(only)));
    assert_eq!(rt; target(hub, 1)?, Told::MoveTo(place(2)));
    assert_eq!(rt; find(hub)?, Told::Found(place(1), 71));
    let release = HubCommand::Release {
        session: SessionNo(1),
    };
    assert_eq!(rt; ask(hub, release)?, Told::Done);
    assert_eq!(rt; target(hub, 1)?, Told::NoSession);
    assert_eq!(rt; find(hub)?, Told::NoKey);
    assert_eq!(rt; admit(hub, 0)?, Told::Admitted(SessionNo(3)));
    Ok(())
}

fn sessions_move<R: Abort>(rt: &R, alloc: Global, hub: &mut Hub) -> Result<(), Fail> {
    two_come_in(rt, alloc, hub)?;
    the_first_moves(rt, alloc, hub)
}

/// Two sessions of a tenant, of which one moves off a draining pod.
#[test]
fn a_session_moves(rt: HostRuntime) -> Result<(), Fail> {
    let mut hub = Hub::opening(rt.alloc())?;
    let seen = sessions_move(&rt, rt.alloc(), &mut hub);
    drop(hub);
    seen
}

/// An allow list of the tenant, with no network.
fn closed(alloc: Global) -> Result<Lists, NoMemory> {
    let mut lists = Lists::new(alloc);
    lists.add_allow(TENANT, None)?;
    Ok(lists)
}

/// A deny entry of the client's network.
fn denied(alloc: Global) -> Result<Lists, Fail> {
    let mut lists = Lists::new(alloc);
    lists.add_deny(Deny {
        who: Who::Network(read_net("10.0.0.0/8")?),
        until: None,
        reason: Text::of(alloc, "too many tries")?,
    })?;
    Ok(lists)
}

fn set_lists(hub: &mut Hub, lists: Lists) -> Result<Told, NoMemory> {
    ask(hub, HubCommand::SetLists(lists))
}

fn some_stay_out<R: Abort>(rt: &R, alloc: Global, hub: &mut Hub) -> Result<(), Fail> {
    update(hub, row(alloc, 1, 0, 1)?)?;
    let failed = HubCommand::Report {
        addr: CLIENT,
        tenant: TENANT,
        ok: false,
        now: 100,
    };
    ask(hub, failed)?;
    assert_eq!(rt; admit(hub, 100)?, Told::No(Refusal::Throttled(101)));
    assert_eq!(rt; admit(hub, 101)?, Told::Admitted(SessionNo(1)));
    update(hub, row(alloc, 2, 1, 1)?)?;
    assert_eq!(rt; admit(hub, 101)?, Told::No(Refusal::NoPod));
    set_lists(hub, closed(alloc)?)?;
    assert_eq!(rt; admit(hub, 101)?, Told::No(Refusal::NotAllowed));
    set_lists(hub, denied(alloc)?)?;
    assert_eq!(rt; admit(hub, 101)?, Told::No(Refusal::Denied(0)));
    Ok(())
}

#[test]
fn who_stays_out(rt: HostRuntime) -> Result<(), Fail> {
    let mut hub = Hub::opening(rt.alloc())?;
    let seen = some_stay_out(&rt, rt.alloc(), &mut hub);
    drop(hub);
    seen
}
