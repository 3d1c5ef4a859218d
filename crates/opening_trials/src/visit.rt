//! One connection: what it comes to, what its client hears, and what its pod is sent.

use access_lists::Lists;
use counted_desk::Desk;
use memory_links::{ListClock, ListWords, ScriptDial, ScriptDialer, ScriptLink};
use pgw_frames::{Bytes, NoMemory};
use proxy_hub::{DeskPort, Hub, HubCommand, HubPort, Refusal};
use proxy_links::{Clock, Dialer, Words};
use proxy_outside::{Addr, MemSink, MemSource, Place, PodNo, Sink, Source, TenantId};
use session_door::DoorCut;
use session_entry::{Received, receive};
use session_greeting::Limits;
use session_opening::{Ending, Opened, open, packet_fits};
use startup_route::Route;
use std::alloc::Global;
use std::sync::Wait;
use std::test::*;
use tenant_directory::{Pod, PodState, RowFault, TenantRow};
use transfer_stages::Cut;

pub(crate) const CLIENT: Addr = Addr::V4(0x0a01_0203);

pub(crate) const TENANT: TenantId = TenantId(7);

const LIMITS: Limits = Limits {
    patience: 2,
    login_waits: 3,
};

/// What a connection came to.
#[derive(Clone, Copy, Debug, PartialEq, Eq)]
pub(crate) enum Told {
    /// The session's number, the secret of the client's key, and the process of the pod's.
    Ready(u32, u32, Option<u32>),
    Cancelled,
    RefusedAtDoor,
    CutAtDoor(DoorCut),
    TooLong,
    Refused(Refusal),
    DialFault,
    JournalFull(u32),
    AuthRefused,
    Left,
    PodEnded,
    PodUnexpected(u8),
    PodOther,
    ClientEnded,
    ClientOther,
    NoMemory,
}

/// What one connection shows.
#[derive(Clone, Copy, Debug, PartialEq, Eq)]
pub(crate) struct Seen {
    pub told: Told,
    /// Whether the client heard just what it is to hear.
    pub heard: bool,
    pub dials: usize,
    /// Whether the link that was hung up first had been sent just what it is to be sent, or there is none to be.
    pub sent: bool,
}

fn ending_of(why: &Ending) -> Told {
    match why {
        Ending::Refused(why) => Told::Refused(*why),
        Ending::DialFault => Told::DialFault,
        Ending::JournalFull(most) => Told::JournalFull(*most),
        Ending::AuthRefused(_) => Told::AuthRefused,
        Ending::Left => Told::Left,
        Ending::PodCut(Cut::Ended) => Told::PodEnded,
        Ending::PodCut(Cut::Unexpected(f)) => Told::PodUnexpected(f.tag),
        Ending::PodCut(_) => Told::PodOther,
        Ending::ClientCut(Cut::Ended) => Told::ClientEnded,
        Ending::ClientCut(_) => Told::ClientOther,
        Ending::NoMemory => Told::NoMemory,
    }
}

fn opening_of<T, R>(opened: &Opened<T, R>) -> Told {
    match opened {
        Opened::Ready(s) => Told::Ready(s.number.0, s.key.secret, s.pod_key.map(|k| k.process)),
        Opened::Ended(ended) => ending_of(&ended.why),
    }
}

/// Opens a session of this route.
fn begin<W: Wait, S: Source, K: Sink, H: HubPort, D: Dialer, C: Clock, X: Words>(
    rt: &W,
    alloc: Global,
    client_in: &mut S,
    client_out: &mut K,
    hub: &mut H,
    dialer: &mut D,
    clock: &mut C,
    words: &mut X,
    route: &Route,
    waits: u64,
) -> Told {
    if waits >= LIMITS.login_waits || !packet_fits(&route.params) {
        return Told::TooLong;
    }
    let opened = open(
        rt, alloc, client_in, client_out, hub, dialer, clock, words, CLIENT, route, waits, LIMITS,
    );
    let told = opening_of(&opened);
    drop(opened);
    told
}

/// Receives a client, and opens a session where it wants one.
fn come<W: Wait, S: Source, K: Sink, H: HubPort, D: Dialer, C: Clock, X: Words>(
    rt: &W,
    alloc: Global,
    client_in: &mut S,
    client_out: &mut K,
    hub: &mut H,
    dialer: &mut D,
    clock: &mut C,
    words: &mut X,
) -> Told {
    match receive(
        rt,
        alloc,
        client_in,
        client_out,
        hub,
        dialer,
        CLIENT,
        LIMITS.login_waits,
    ) {
        Received::Session(route, waits) => begin(
            rt, alloc, client_in, client_out, hub, dialer, clock, words, &route, waits,
        ),
        Received::Cancelled => Told::Cancelled,
        Received::Refused(_) => Told::RefusedAtDoor,
        Received::JournalFull(most) => Told::JournalFull(most),
        Received::Cut(cut) => Told::CutAtDoor(cut),
    }
}

/// A row of so many pods, all of which run.
fn row(alloc: Global, pods: u32) -> Result<TenantRow, RowFault> {
    let mut all = Vec::new(alloc);
    for pod in 1..=pods {
        all.push(Pod {
            place: Place {
                pod: PodNo(pod),
                addr: Addr::V4(pod),
                port: 26_257,
            },
            state: PodState::Running,
        })?;
    }
    TenantRow::of(alloc, TENANT, 1, all.as_slice())
}

/// Tells the hub of the tenant's pods: two commands.
fn load<R: Wait, H: HubPort>(
    rt: &R,
    alloc: Global,
    hub: &mut H,
    pods: u32,
) -> Result<bool, RowFault> {
    let row = row(alloc, pods)?;
    let lists = hub.ask(rt, HubCommand::SetLists(Lists::new(alloc))).is_ok();
    let update = hub.ask(rt, HubCommand::Update(row)).is_ok();
    Ok(lists && update)
}

/// One link on which a pod says these bytes, or none.
fn links(alloc: Global, pod: Option<&[u8]>) -> Result<Vec<ScriptDial>, NoMemory> {
    let mut all = Vec::new(alloc);
    if let Some(bytes) = pod {
        all.push(ScriptDial::Link(ScriptLink {
            bytes: Bytes::of(alloc, bytes)?,
            idle: Vec::new(alloc),
            failing_reads: Vec::new(alloc),
            failing_writes: Vec::new(alloc),
        }))?;
    }
    Ok(all)
}

/// What it came to, and whether the client heard this.
fn heard_by<R: Wait, H: HubPort, D: Dialer>(
    rt: &R,
    alloc: Global,
    hub: &mut H,
    dialer: &mut D,
    client: &[u8],
    idle: &[u64],
    heard: &[u8],
) -> Result<(Told, bool), NoMemory> {
    let mut clock = ListClock::make(alloc, &[100])?;
    let mut words = ListWords::make(alloc, &[16_909_060])?;
    let mut client_in = MemSource::make(alloc, client, 64, idle, &[])?;
    let mut client_out = MemSink::make(alloc, 64, &[])?;
    let told = come(
        rt,
        alloc,
        &mut client_in,
        &mut client_out,
        hub,
        dialer,
        &mut clock,
        &mut words,
    );
    Ok((told, client_out.contents() == heard))
}

fn is_sent(dialer: &ScriptDialer, want: Option<&[u8]>) -> bool {
    match dialer.hung_up().first() {
        Some(link) => want == Some(link.tx.contents()),
        None => want.is_none(),
    }
}

/// One connection to a hub that is loaded.
pub(crate) fn visit<R: Wait, H: HubPort>(
    rt: &R,
    alloc: Global,
    hub: &mut H,
    client: &[u8],
    idle: &[u64],
    pod: Option<&[u8]>,
    heard: &[u8],
    sent: Option<&[u8]>,
) -> Result<Seen, NoMemory> {
    let mut dialer = ScriptDialer::make(alloc, links(alloc, pod)?)?;
    let told = heard_by(rt, alloc, hub, &mut dialer, client, idle, heard);
    let dials = dialer.dials().len();
    let sent = is_sent(&dialer, sent);
    drop(dialer);
    let (told, heard) = told?;
    Ok(Seen {
        told,
        heard,
        dials,
        sent,
    })
}

fn load_and_visit<R: Wait, H: HubPort>(
    rt: &R,
    alloc: Global,
    hub: &mut H,
    pods: u32,
    client: &[u8],
    idle: &[u64],
    pod: Option<&[u8]>,
    heard: &[u8],
    sent: Option<&[u8]>,
) -> Result<Seen, Fail> {
    load(rt, alloc, hub, pods)?;
    Ok(visit(rt, alloc, hub, client, idle, pod, heard, sent)?)
}

/// One connection to a hub of its own, with so many pods, that takes so many commands.
pub(crate) fn visit_alone<R: Wait>(
    rt: &R,
    alloc: Global,
    most: u32,
    pods: u32,
    client: &[u8],
    idle: &[u64],
    pod: Option<&[u8]>,
    heard: &[u8],
    sent: Option<&[u8]>,
) -> Result<Seen, Fail> {
    let (desk, seat) = Desk::<Hub>::make(alloc, most)?;
    let mut port = DeskPort::make(&desk, seat);
    let seen = load_and_visit(rt, alloc, &mut port, pods, client, idle, pod, heard, sent);
    drop(port);
    drop(desk);
    seen
}

fn visit_twice<R: Wait, H: HubPort>(
    rt: &R,
    alloc: Global,
    hub: &mut H,
    first: &[u8],
    first_pod: &[u8],
    client: &[u8],
    pod: Option<&[u8]>,
    heard: &[u8],
    sent: Option<&[u8]>,
) -> Result<Seen, Fail> {
    load(rt, alloc, hub, 1)?;
    let _before = visit(rt, alloc, hub, first, &[], Some(first_pod), b"", None)?;
    Ok(visit(rt, alloc, hub, client, &[], pod, heard, sent)?)
}

/// The second of two connections from one address to a hub.
pub(crate) fn visit_behind<R: Wait>(
    rt: &R,
    alloc: Global,
    first: &[u8],
    first_pod: &[u8],
    client: &[u8],
    pod: Option<&[u8]>,
    heard: &[u8],
    sent: Option<&[u8]>,
) -> Result<Seen, Fail> {
    let (desk, seat) = Desk::<Hub>::make(alloc, 99)?;
    let mut port = DeskPort::make(&desk, seat);
    let seen = visit_twice(
        rt, alloc, &mut port, first, first_pod, client, pod, heard, sent,
    );
    drop(port);
    drop(desk);
    seen
}
