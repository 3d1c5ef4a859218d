//! The top call for one connection.

ghost use Rattle.std.specs.Prelude.{◌≡◌, ◌≤◌};
ghost use Rattle.session_round.specs.Halves.{board_of};
ghost use Rattle.session_opening.specs.Linking.{around};
ghost use Rattle.proxy_session.specs.Calling.{shown, outcome, unserved, Calls};

use crate::serving::serve;
use crate::why::{Why, by_door};
use proxy_hub::HubPort;
use proxy_links::{Clock, Dialer, Marks, Words};
use proxy_outside::{Addr, ClientKey, SessionNo, Sink, Source};
use session_entry::{Received, receive};
use session_greeting::Limits;
use std::alloc::Global;
use std::sync::Wait;
use std::thread::Threads;

/// What a connection gives back, and why it ended. Each count stops at 2^64 - 1.
#[derive(Drop)]
pub struct Ended<S, K> {
    pub client_in: S,
    pub client_out: K,
    pub why: Why,
    /// The session's number and the client's key, as the hub gave them.
    pub session: Option<SessionNo>,
    pub key: Option<ClientKey>,
    /// How often the session was moved.
    pub moves: u64,
    /// Asks of the hub behind the greeting that its port refused, or that found no such session.
    pub unbooked: u64,
    /// Attempts to move the session that were given up for want of memory.
    pub starved: u64,
}

/// A connection that got no session.
fn unserved<S, K>(client_in: S, client_out: K, why: Why) -> Ended<S, K>
    ensures outcome { outcome result ≡ unserved why }
    ensures client_in { result.client_in ≡ client_in }
    ensures client_out { result.client_out ≡ client_out }
{
    Ended {
        client_in,
        client_out,
        why,
        session: None,
        key: None,
        moves: 0,
        unbooked: 0,
        starved: 0,
    }
}

/// Serves the client of this address until its connection has ended. Before its greeting has ended it may be idle fewer than
/// `login_waits` reads; a pod may be idle fewer than `patience` reads in a greeting, and in an attempt to move the session.
///
/// Whoever gets no session is told why by one ErrorResponse, unless a pod's greeting began. At the return each link was hung
/// up, the session released, and the halves of `marks` are home.
pub fn proxy_session<
    W: Wait + Threads + Sync,
    S: Source + Send + Drop,
    K: Sink + Send + Drop,
    D: Dialer,
    H: HubPort,
    M: Marks,
    C: Clock,
    X: Words,
>(
    rt: &W,
    alloc: Global,
    client_in: S,
    client_out: K,
    peer: Addr,
    dialer: &mut D,
    hub: &mut H,
    marks: &mut M,
    clock: &mut C,
    words: &mut X,
    limits: Limits,
) -> Ended<S, K>
    requires home { M.home marks.old }
    requires pod { 1 ≤ limits.patience }
    requires client { 1 ≤ limits.login_waits }
    ensures home { M.home marks.new }
    ensures calls { Calls peer limits
        (shown (around (S.origin client_in) (K.target client_out) (H.port hub.old) (D.links dialer.old) (C.given clock.old)) (X.given words.old) (board_of M.front M.back marks.old))
        (shown (around (S.origin result.client_in) (K.target result.client_out) (H.port hub.new) (D.links dialer.new) (C.given clock.new)) (X.given words.new) (board_of M.front M.back marks.new))
        (outcome result) }
{
    let mut client_in = client_in;
    let mut client_out = client_out;
    match receive(
        rt,
        alloc,
        &mut client_in,
        &mut client_out,
        hub,
        dialer,
        peer,
        limits.login_waits,
    ) {
        Received::Session(route, waited) => serve(
            rt, alloc, client_in, client_out, peer, dialer, hub, marks, clock, words, &route,
            waited, limits,
        ),
        Received::Cancelled => unserved(client_in, client_out, Why::CancelDone),
        Received::Refused(fault) => unserved(client_in, client_out, Why::BadStartup(fault)),
        Received::JournalFull(most) => unserved(client_in, client_out, Why::JournalFull(most)),
        Received::Cut(cut) => unserved(client_in, client_out, by_door(cut)),
    }
}
