//! One client, from its accepted socket to its end.

ghost use Rattle.std.specs.Prelude.{◌≡◌, ◌≤◌};
ghost use Rattle.std.specs.Arc.{arc_value};

use crate::common::Common;
use crate::seated::Seated;
use crate::supply::SharedWords;
use crate::why::word_of;
use atomic_board::AtomicBoard;
use bell_hub::BellHub;
use counted_desk::Seat;
use pgw_frames::NoMemory;
use proxy_hub::{DeskPort, Hub};
use proxy_outside::{SessionNo, TenantId};
use proxy_session::{Ended, proxy_session};
use server_console::{Closed, closed_line};
use server_host::{Host, moment};
use session_greeting::Limits;
use std::alloc::Global;
use std::net::{SocketAddr, TcpStream};
use std::time::{Clock, Duration, Instant};
use tcp_links::{Connection, Limits as LinkLimits, Pace, SystemClock, addr_of};

/// How much is gathered for a socket, and how long its calls wait, where so many idle reads in a row end all that counts them.
fn link_limits(waits: u64) -> LinkLimits {
    LinkLimits {
        gathered: 65_536,
        pace: Pace {
            fast: Duration::from_millis(100),
            waits,
            slow: Duration::from_secs(1),
        },
        dial: Duration::from_secs(5),
        send: Duration::from_secs(300),
    }
}

/// What a connection came to.
#[derive(Clone, Copy)]
struct Course {
    tenant: Option<TenantId>,
    session: Option<SessionNo>,
    why: &'static str,
    moves: u64,
}

impl Course {
    /// It didn't begin.
    fn none(why: &'static str) -> Course {
        Course {
            tenant: None,
            session: None,
            why,
            moves: 0,
        }
    }
}

/// These limits, and 1 in place of 0, which settings don't have.
fn at_least_one(limits: Limits) -> Limits
    ensures { (1 ≤ result.patience) × (1 ≤ result.login_waits) }
{
    Limits {
        patience: limits.patience.max(1),
        login_waits: limits.login_waits.max(1),
    }
}

/// Serves the client over these ends of its socket.
fn run<R>(
    rt: &R,
    alloc: Global,
    common: &Common,
    seat: Seat<Hub>,
    ends: Connection<R>,
    peer: SocketAddr,
) -> Result<Course, NoMemory>
where
    R: Host,
    requires { seat.desk ≡ common.now.desk }
{
    let (mut board, bell) = AtomicBoard::make(alloc)?;
    let mut hub = BellHub::make(DeskPort::make(&common.desk, seat), &common.bells, bell);
    let mut clock = SystemClock::new(*rt);
    let mut words = SharedWords {
        rt: *rt,
        supply: &common.supply,
    };
    let Connection {
        source,
        sink,
        mut dialer,
    } = ends;
    let ended = proxy_session(
        rt,
        alloc,
        source,
        sink,
        addr_of(peer.ip()),
        &mut dialer,
        &mut hub,
        &mut board,
        &mut clock,
        &mut words,
        at_least_one(common.limits),
    );
    let Ended {
        client_in,
        client_out,
        why,
        session,
        key: _,
        moves,
        unbooked: _,
        starved: _,
    } = ended;
    client_out.finish();
    drop(client_out);
    drop(client_in);
    let course = Course {
        tenant: hub.tenant(),
        session,
        why: word_of(&why),
        moves,
    };
    drop(why);
    Ok(course)
}

/// Serves the client on its socket.
fn serve_on<R>(
    rt: &R,
    alloc: Global,
    common: &Common,
    seat: Seat<Hub>,
    client: TcpStream,
    peer: SocketAddr,
) -> Course
where
    R: Host,
    requires { seat.desk ≡ common.now.desk }
{
    let limits = common.limits;
    let waits = limits.patience.max(limits.login_waits);
    let Ok(ends) = Connection::make(*rt, alloc, client, link_limits(waits)) else {
        return Course::none("no-socket");
    };
    match run(rt, alloc, common, seat, ends, peer) {
        Ok(course) => course,
        Err(_) => Course::none("no-memory"),
    }
}

fn seconds_since<R: Clock>(rt: &R, began: Option<Instant>) -> u64 {
    match began {
        Some(began) => match began.elapsed(rt) {
            Ok(since) => since.as_secs(),
            Err(_) => 0,
        },
        None => 0,
    }
}

/// Serves the client on its socket until its connection has ended, and says so on standard error.
pub(crate) fn serve_client<R>(
    rt: &R,
    alloc: Global,
    seated: Seated,
    client: TcpStream,
    peer: SocketAddr,
)
where
    R: Host,
{
    let began = Instant::now(rt).ok();
    let (common, seat) = seated.parts();
    let course = serve_on(rt, alloc, &common, seat, client, peer);
    let closed = Closed {
        peer,
        tenant: course.tenant,
        session: course.session,
        why: course.why,
        moves: course.moves,
        seconds: seconds_since(rt, began),
    };
    let line = closed_line(alloc, moment(rt), &closed);
    common.console.say(rt, line);
    common.ends.end(rt);
}
