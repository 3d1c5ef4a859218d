//! Letting a client in, and ending a call that comes to nothing.

ghost use Rattle.std.specs.Prelude.{◌≡◌, ◌≤◌, ◌+◌};
ghost use Rattle.pgw_messages.specs.Startup.{Fits};
ghost use Rattle.session_opening.specs.Linking.{around};
ghost use Rattle.session_opening.specs.Opening.{opened, Serves, LetsIn, Opens};

use crate::booking::{Guest, release};
use crate::ending::{Ending, fault_ending};
use crate::link::find_link;
use crate::telling::tell_ending;
use pgw_messages::PodKey;
use proxy_hub::HubPort;
use proxy_links::{Clock, Dialer, Words};
use proxy_outside::{Addr, ClientKey, Place, SessionNo, Sink, Source};
use session_admission::{Admission, admit, give_key};
use session_greeting::Limits;
use startup_route::Route;
use std::alloc::Global;
use std::sync::Wait;

/// A session that is ready: whose it is, and its link.
#[derive(Drop)]
pub struct Session<T, R> {
    pub number: SessionNo,
    /// The key that its client has.
    pub key: ClientKey,
    pub place: Place,
    pub tx: T,
    pub rx: R,
    /// The key that its pod gave, where it gave one.
    pub pod_key: Option<PodKey>,
}

/// A call that came to no session. The hub's number and key are those that it gave.
#[derive(Drop)]
pub struct Ended {
    pub session: Option<SessionNo>,
    pub key: Option<ClientKey>,
    pub why: Ending,
}

/// What an opening comes to.
#[derive(Drop)]
pub enum Opened<T, R> {
    Ready(Session<T, R>),
    Ended(Ended),
}

/// Gives the session a key, and begins it at a pod.
fn serve<W: Wait, S: Source, K: Sink, H: HubPort, D: Dialer, C: Clock, X: Words>(
    rt: &W,
    alloc: Global,
    client_in: &mut S,
    client_out: &mut K,
    hub: &mut H,
    dialer: &mut D,
    clock: &mut C,
    words: &mut X,
    peer: Addr,
    session: SessionNo,
    route: &Route,
    waited: u64,
    limits: Limits,
) -> Opened<D::Tx, D::Rx>
    requires fits { Fits route.now.params }
    requires pod { 1 ≤ limits.patience }
    requires client { waited + 1 ≤ limits.login_waits }
    ensures { Serves peer session route.now waited limits
        (around (S.origin client_in.old) (K.target client_out.old) (H.port hub.old) (D.links dialer.old) (C.given clock.old))
        (around (S.origin client_in.new) (K.target client_out.new) (H.port hub.new) (D.links dialer.new) (C.given clock.new))
        (X.given words.old) (X.given words.new)
        (opened D.Tx.target D.Rx.origin result) }
{
    match give_key(rt, hub, words, session, peer) {
        Ok(key) => {
            let guest = Guest {
                peer,
                tenant: route.tenant,
                session,
                key,
            };
            match find_link(
                rt,
                alloc,
                client_in,
                client_out,
                hub,
                dialer,
                clock,
                guest,
                &route.params,
                waited,
                limits,
            ) {
                Ok(link) => Opened::Ready(Session {
                    number: session,
                    key,
                    place: link.place,
                    tx: link.tx,
                    rx: link.rx,
                    pod_key: link.key,
                }),
                Err(why) => Opened::Ended(Ended {
                    session: Some(session),
                    key: Some(key),
                    why,
                }),
            }
        }
        Err(fault) => Opened::Ended(Ended {
            session: Some(session),
            key: None,
            why: fault_ending(fault),
        }),
    }
}

/// Lets the client in, and releases its session where it comes to nothing.
fn let_in<W: Wait, S: Source, K: Sink, H: HubPort, D: Dialer, C: Clock, X: Words>(
    rt: &W,
    alloc: Global,
    client_in: &mut S,
    client_out: &mut K,
    hub: &mut H,
    dialer: &mut D,
    clock: &mut C,
    words: &mut X,
    peer: Addr,
    route: &Route,
    waited: u64,
    limits: Limits,
) -> Opened<D::Tx, D::Rx>
    requires fits { Fits route.now.params }
    requires pod { 1 ≤ limits.patience }
    requires client { waited + 1 ≤ limits.login_waits }
    ensures { LetsIn peer route.now waited limits
        (around (S.origin client_in.old) (K.target client_out.old) (H.port hub.old) (D.links dialer.old) (C.given clock.old))
        (around (S.origin client_in.new) (K.target client_out.new) (H.port hub.new) (D.links dialer.new) (C.given clock.new))
        (X.given words.old) (X.given words.new)
        (opened D.Tx.target D.Rx.origin result) }
{
    match admit(rt, hub, clock, peer, route.tenant) {
        Admission::Admitted(session) => match serve(
            rt, alloc, client_in, client_out, hub, dialer, clock, words, peer, session, route,
            waited, limits,
        ) {
            Opened::Ready(ready) => Opened::Ready(ready),
            Opened::Ended(ended) => {
                release(rt, hub, session);
                Opened::Ended(ended)
            }
        },
        Admission::Refused(why) => Opened::Ended(Ended {
            session: None,
            key: None,
            why: Ending::Refused(why),
        }),
        Admission::Fault(fault) => Opened::Ended(Ended {
            session: None,
            key: None,
            why: fault_ending(fault),
        }),
    }
}

/// Opens a session for the client of this address and route. It was idle `waited` times before; once it is so
/// `login_waits` times over all, or its pod `patience` times in the greeting, it is left.
///
/// Its startup packet must be within its limit, of which `packet_fits` is the test.
///
/// Where there is no session the client is told why, unless a pod's greeting began; the link is hung up, and the session
/// released.
pub fn open<W: Wait, S: Source, K: Sink, H: HubPort, D: Dialer, C: Clock, X: Words>(
    rt: &W,
    alloc: Global,
    client_in: &mut S,
    client_out: &mut K,
    hub: &mut H,
    dialer: &mut D,
    clock: &mut C,
    words: &mut X,
    peer: Addr,
    route: &Route,
    waited: u64,
    limits: Limits,
) -> Opened<D::Tx, D::Rx>
    requires fits { Fits route.now.params }
    requires pod { 1 ≤ limits.patience }
    requires client { waited + 1 ≤ limits.login_waits }
    ensures { Opens peer route.now waited limits
        (around (S.origin client_in.old) (K.target client_out.old) (H.port hub.old) (D.links dialer.old) (C.given clock.old))
        (around (S.origin client_in.new) (K.target client_out.new) (H.port hub.new) (D.links dialer.new) (C.given clock.new))
        (X.given words.old) (X.given words.new)
        (opened D.Tx.target D.Rx.origin result) }
{
    match let_in(
        rt, alloc, client_in, client_out, hub, dialer, clock, words, peer, route, waited, limits,
    ) {
        Opened::Ready(ready) => Opened::Ready(ready),
        Opened::Ended(ended) => Opened::Ended(Ended {
            session: ended.session,
            key: ended.key,
            why: tell_ending(alloc, client_out, ended.why),
        }),
    }
}
