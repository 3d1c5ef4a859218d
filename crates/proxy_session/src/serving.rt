//! A client that wants a session.

ghost use Rattle.std.specs.Prelude.{◌≡◌, ◌≤◌, ◌+◌, ℕ, List, Option, None, codes};
ghost use Rattle.pgw_messages.specs.Params.{value_of};
ghost use Rattle.pgw_messages.specs.Startup.{Fits};
ghost use Rattle.session_round.specs.Halves.{board_of};
ghost use Rattle.session_opening.specs.Linking.{around};
ghost use Rattle.proxy_session.specs.Calling.{shown, outcome, Runs, Serves};

use crate::session::Ended;
use crate::why::{by_finish, by_opening};
use pgw_messages::Params;
use processor_core::{Request, Response};
use proxy_hub::HubPort;
use proxy_links::{Clock, Dialer, Marks, Words};
use proxy_outside::{Addr, Sink, Source};
use session_course::{Counts, Done, release, run_course};
use session_greeting::Limits;
use session_opening::{Opened, Session, open};
use session_round::Live;
use startup_route::Route;
use std::alloc::Global;
use std::sync::Wait;
use std::thread::Threads;

/// Runs a session that is ready to its end, hangs its link up, and releases it.
fn run<
    W: Wait + Threads + Sync,
    S: Source + Send + Drop,
    K: Sink + Send + Drop,
    D: Dialer,
    H: HubPort,
    M: Marks,
    X: Words,
>(
    rt: &W,
    alloc: Global,
    client_in: S,
    client_out: K,
    dialer: &mut D,
    hub: &mut H,
    marks: &mut M,
    words: &mut X,
    session: Session<D::Tx, D::Rx>,
    params: &Params,
    patience: u64,
) -> Ended<S, K>
    requires home { M.home marks.old }
    requires patient { 1 ≤ patience }
    requires plain { value_of (codes "crdb:session_revival_token_base64") params.now ≡ None }
    requires alike { (D.Tx.target session.tx).link ≡ (D.Rx.origin session.rx).link }
    requires open { 1 ≤ (D.links dialer.old).live }
    ensures home { M.home marks.new }
    ensures runs { (moments : Option (List ℕ)) → Runs params.now patience
        (record { session = session.number; key = session.key; link = record { place = session.place; tx = D.Tx.target session.tx; rx = D.Rx.origin session.rx; key = session.pod_key } })
        (shown (around (S.origin client_in) (K.target client_out) (H.port hub.old) (D.links dialer.old) moments) (X.given words.old) (board_of M.front M.back marks.old))
        (shown (around (S.origin result.client_in) (K.target result.client_out) (H.port hub.new) (D.links dialer.new) moments) (X.given words.new) (board_of M.front M.back marks.new))
        (outcome result) }
{
    let number = session.number;
    let key = session.key;
    let live = Live {
        client_in,
        client_out,
        tx: session.tx,
        rx: session.rx,
        request: Request::new(alloc),
        response: Response::new(alloc),
    };
    let mut counts = Counts {
        moves: 0,
        starved: 0,
        unbooked: 0,
    };
    let Done { live, finish } = run_course(
        rt,
        alloc,
        dialer,
        words,
        marks,
        hub,
        live,
        number,
        params,
        patience,
        &mut counts,
    );
    let Live {
        client_in,
        client_out,
        tx,
        rx,
        request,
        response,
    } = live;
    drop(request);
    drop(response);
    dialer.hang_up(tx, rx);
    release(rt, hub, number, &mut counts.unbooked);
    Ended {
        client_in,
        client_out,
        why: by_finish(finish),
        session: Some(number),
        key: Some(key),
        moves: counts.moves,
        unbooked: counts.unbooked,
        starved: counts.starved,
    }
}

/// Opens a session for the client of this address and route, and runs it to its end.
pub(crate) fn serve<
    W: Wait + Threads + Sync,
    S: Source + Send + Drop,
    K: Sink + Send + Drop,
    D: Dialer,
    H: HubPort,
    M: Marks,
    C: Clock,
    X: Words,
>(
    rt: &W,
    alloc: Global,
    client_in: S,
    client_out: K,
    peer: Addr,
    dialer: &mut D,
    hub: &mut H,
    marks: &mut M,
    clock: &mut C,
    words: &mut X,
    route: &Route,
    waited: u64,
    limits: Limits,
) -> Ended<S, K>
    requires home { M.home marks.old }
    requires fits { Fits route.now.params }
    requires plain { value_of (codes "crdb:session_revival_token_base64") route.now.params ≡ None }
    requires pod { 1 ≤ limits.patience }
    requires client { waited + 1 ≤ limits.login_waits }
    ensures home { M.home marks.new }
    ensures serves { Serves peer route.now waited limits
        (shown (around (S.origin client_in) (K.target client_out) (H.port hub.old) (D.links dialer.old) (C.given clock.old)) (X.given words.old) (board_of M.front M.back marks.old))
        (shown (around (S.origin result.client_in) (K.target result.client_out) (H.port hub.new) (D.links dialer.new) (C.given clock.new)) (X.given words.new) (board_of M.front M.back marks.new))
        (outcome result) }
{
    let mut client_in = client_in;
    let mut client_out = client_out;
    match open(
        rt,
        alloc,
        &mut client_in,
        &mut client_out,
        hub,
        dialer,
        clock,
        words,
        peer,
        route,
        waited,
        limits,
    ) {
        Opened::Ready(session) => run(
            rt,
            alloc,
            client_in,
            client_out,
            dialer,
            hub,
            marks,
            words,
            session,
            &route.params,
            limits.patience,
        ),
        Opened::Ended(ended) => Ended {
            client_in,
            client_out,
            why: by_opening(ended.why),
            session: ended.session,
            key: ended.key,
            moves: 0,
            unbooked: 0,
            starved: 0,
        },
    }
}
