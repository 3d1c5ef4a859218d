//! The link of a session, from its dial to the end of its greeting.

ghost use Rattle.std.specs.Prelude.{◌≡◌, ◌≤◌, ◌+◌};
ghost use Rattle.pgw_messages.specs.Startup.{Fits};
ghost use Rattle.session_opening.specs.Linking.{around, held, ServesLink, TakesLink, FindsLink};

use crate::booking::{Guest, assign, book};
use crate::ending::{Ending, fault_ending, outcome};
use crate::greeting::begin;
use pgw_messages::{Params, PodKey};
use proxy_hub::HubPort;
use proxy_links::{Clock, Dialer};
use proxy_outside::{Place, Sink, Source};
use session_admission::{Found, find_pod};
use session_greeting::Limits;
use std::alloc::Global;
use std::sync::Wait;

/// A link whose session is ready.
#[derive(Drop)]
pub(crate) struct PodLink<T, R> {
    pub place: Place,
    pub tx: T,
    pub rx: R,
    /// The pod's key, where it gave one.
    pub key: Option<PodKey>,
}

/// Passes the greeting on and tells the hub what it came to. Where there is no session the link is hung up.
pub(crate) fn serve_link<W: Wait, S: Source, K: Sink, H: HubPort, D: Dialer, C: Clock>(
    rt: &W,
    alloc: Global,
    client_in: &mut S,
    client_out: &mut K,
    hub: &mut H,
    dialer: &mut D,
    clock: &mut C,
    guest: Guest,
    params: &Params,
    place: Place,
    tx: D::Tx,
    rx: D::Rx,
    waited: u64,
    limits: Limits,
) -> Result<PodLink<D::Tx, D::Rx>, Ending>
    requires fits { Fits params.now }
    requires pod { 1 ≤ limits.patience }
    requires client { waited + 1 ≤ limits.login_waits }
    requires same { (D.Tx.Sink.target tx).link ≡ (D.Rx.Source.origin rx).link }
    requires open { 1 ≤ (D.links dialer.old).live }
    ensures { ServesLink guest params.now waited limits place (D.Tx.target tx) (D.Rx.origin rx)
        (around (S.origin client_in.old) (K.target client_out.old) (H.port hub.old) (D.links dialer.old) (C.given clock.old))
        (around (S.origin client_in.new) (K.target client_out.new) (H.port hub.new) (D.links dialer.new) (C.given clock.new))
        (held D.Tx.target D.Rx.origin result) }
{
    let mut tx = tx;
    let mut rx = rx;
    let greeted = begin(
        rt, alloc, client_in, client_out, &mut tx, &mut rx, params, guest.key, waited, limits,
    );
    book(rt, hub, clock, guest, &greeted);
    match outcome(greeted) {
        Ok(key) => Ok(PodLink { place, tx, rx, key }),
        Err(why) => {
            dialer.hang_up(tx, rx);
            Err(why)
        }
    }
}

/// Takes a new link for the session, whose place the hub keeps.
pub(crate) fn take_link<W: Wait, S: Source, K: Sink, H: HubPort, D: Dialer, C: Clock>(
    rt: &W,
    alloc: Global,
    client_in: &mut S,
    client_out: &mut K,
    hub: &mut H,
    dialer: &mut D,
    clock: &mut C,
    guest: Guest,
    params: &Params,
    place: Place,
    tx: D::Tx,
    rx: D::Rx,
    waited: u64,
    limits: Limits,
) -> Result<PodLink<D::Tx, D::Rx>, Ending>
    requires fits { Fits params.now }
    requires pod { 1 ≤ limits.patience }
    requires client { waited + 1 ≤ limits.login_waits }
    requires same { (D.Tx.Sink.target tx).link ≡ (D.Rx.Source.origin rx).link }
    requires open { 1 ≤ (D.links dialer.old).live }
    ensures { TakesLink guest params.now waited limits place (D.Tx.target tx) (D.Rx.origin rx)
        (around (S.origin client_in.old) (K.target client_out.old) (H.port hub.old) (D.links dialer.old) (C.given clock.old))
        (around (S.origin client_in.new) (K.target client_out.new) (H.port hub.new) (D.links dialer.new) (C.given clock.new))
        (held D.Tx.target D.Rx.origin result) }
{
    match assign(rt, hub, guest.session, place) {
        Ok(()) => serve_link(
            rt, alloc, client_in, client_out, hub, dialer, clock, guest, params, place, tx, rx,
            waited, limits,
        ),
        Err(fault) => {
            dialer.hang_up(tx, rx);
            Err(fault_ending(fault))
        }
    }
}

/// Finds a pod for a client that was let in, and begins its session there.
pub(crate) fn find_link<W: Wait, S: Source, K: Sink, H: HubPort, D: Dialer, C: Clock>(
    rt: &W,
    alloc: Global,
    client_in: &mut S,
    client_out: &mut K,
    hub: &mut H,
    dialer: &mut D,
    clock: &mut C,
    guest: Guest,
    params: &Params,
    waited: u64,
    limits: Limits,
) -> Result<PodLink<D::Tx, D::Rx>, Ending>
    requires fits { Fits params.now }
    requires pod { 1 ≤ limits.patience }
    requires client { waited + 1 ≤ limits.login_waits }
    ensures { FindsLink guest params.now waited limits
        (around (S.origin client_in.old) (K.target client_out.old) (H.port hub.old) (D.links dialer.old) (C.given clock.old))
        (around (S.origin client_in.new) (K.target client_out.new) (H.port hub.new) (D.links dialer.new) (C.given clock.new))
        (held D.Tx.target D.Rx.origin result) }
{
    match find_pod(rt, hub, dialer, guest.tenant) {
        Found::Link(place, tx, rx) => take_link(
            rt, alloc, client_in, client_out, hub, dialer, clock, guest, params, place, tx, rx,
            waited, limits,
        ),
        Found::DialFault => Err(Ending::DialFault),
        Found::Refused(why) => Err(Ending::Refused(why)),
        Found::Fault(fault) => Err(fault_ending(fault)),
    }
}
