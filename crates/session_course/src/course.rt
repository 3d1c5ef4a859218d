//! The course of a session.

ghost use Rattle.std.specs.Prelude.{◌≡◌, ◌≤◌, None, codes};
ghost use Rattle.pgw_messages.specs.Params.{value_of};
ghost use Rattle.session_round.specs.Halves.{now_of, board_of};
ghost use Rattle.session_rounds.specs.Scenes.{scene};
ghost use Rattle.session_trace.specs.Running.{Board};
ghost use Rattle.session_course.specs.Standing.{course};
ghost use Rattle.session_course.specs.Following.{Follows};
ghost use Rattle.session_course.specs.Course.{Stays, Courses};

use crate::booking::book;
use crate::counts::{Counts, count};
use pgw_messages::Params;
use proxy_hub::HubPort;
use proxy_links::{Dialer, Marks, Words};
use proxy_outside::{Place, SessionNo, Sink, Source};
use session_legs::LegEnd;
use session_moves::{Attempted, Tried, try_move};
use session_round::Live;
use session_rounds::{Stop, run_rounds};
use std::alloc::Global;
use std::sync::Wait;
use std::thread::Threads;
use transfer_stages::Cut;

/// Why a course ended.
#[derive(Drop)]
pub enum Finish {
    /// The legs ended so, the client's first, and not both because the board said so.
    Legs(LegEnd, LegEnd),
    /// The link failed in an attempt to move the session, or its pod gave what isn't accepted.
    Exchange(Cut),
}

/// What is left of a course. The link is still to be hung up.
#[derive(Drop)]
pub struct Done<S, K, T, R> {
    pub live: Live<S, K, T, R>,
    pub finish: Finish,
}

/// What is left of one stay at a pod, and why it was the last one, where it was.
#[derive(Drop)]
struct Stayed<S, K, T, R> {
    live: Live<S, K, T, R>,
    finish: Option<Finish>,
}

/// Tries to move the session to the place that the hub named, and books the move.
fn follow<W: Wait, S: Source + Drop, K: Sink + Drop, D: Dialer, X: Words, H: HubPort>(
    rt: &W,
    alloc: Global,
    dialer: &mut D,
    words: &mut X,
    hub: &mut H,
    live: Live<S, K, D::Tx, D::Rx>,
    session: SessionNo,
    place: Place,
    params: &Params,
    patience: u64,
    counts: &mut Counts,
) -> Stayed<S, K, D::Tx, D::Rx>
    requires patient { 1 ≤ patience }
    requires plain { value_of (codes "crdb:session_revival_token_base64") params.now ≡ None }
    requires alike { (D.Tx.target live.tx).link ≡ (D.Rx.origin live.rx).link }
    requires open { 1 ≤ (D.links dialer.old).live }
    ensures { (b : Board) → Follows session params.now patience place
        (course (scene (now_of S.origin K.target D.Tx.target D.Rx.origin live) b (H.port hub.old) counts.old.unbooked) (D.links dialer.old) (X.given words.old) counts.old.moves counts.old.starved)
        (course (scene (now_of S.origin K.target D.Tx.target D.Rx.origin result.live) b (H.port hub.new) counts.new.unbooked) (D.links dialer.new) (X.given words.new) counts.new.moves counts.new.starved)
        result.finish }
{
    let Attempted { live, tried } = try_move(alloc, dialer, words, live, place, params, patience);
    match tried {
        Tried::Moved(key) => {
            count(&mut counts.moves);
            book(rt, hub, session, place, key, &mut counts.unbooked);
            Stayed { live, finish: None }
        }
        Tried::Stayed => Stayed { live, finish: None },
        Tried::Starved => {
            count(&mut counts.starved);
            Stayed { live, finish: None }
        }
        Tried::Cut(c) => Stayed {
            live,
            finish: Some(Finish::Exchange(c)),
        },
    }
}

/// Stays at a pod for as long as the hub names no other place, and then tries to move the session there.
fn stay<
    W: Wait + Threads + Sync,
    S: Source + Send + Drop,
    K: Sink + Send + Drop,
    D: Dialer,
    X: Words,
    M: Marks,
    H: HubPort,
>(
    rt: &W,
    alloc: Global,
    dialer: &mut D,
    words: &mut X,
    marks: &mut M,
    hub: &mut H,
    live: Live<S, K, D::Tx, D::Rx>,
    session: SessionNo,
    params: &Params,
    patience: u64,
    counts: &mut Counts,
) -> Stayed<S, K, D::Tx, D::Rx>
    requires home { M.home marks.old }
    requires patient { 1 ≤ patience }
    requires plain { value_of (codes "crdb:session_revival_token_base64") params.now ≡ None }
    requires alike { (D.Tx.target live.tx).link ≡ (D.Rx.origin live.rx).link }
    requires open { 1 ≤ (D.links dialer.old).live }
    ensures home { M.home marks.new }
    ensures stays { Stays session params.now patience
        (course (scene (now_of S.origin K.target D.Tx.target D.Rx.origin live) (board_of M.front M.back marks.old) (H.port hub.old) counts.old.unbooked) (D.links dialer.old) (X.given words.old) counts.old.moves counts.old.starved)
        (course (scene (now_of S.origin K.target D.Tx.target D.Rx.origin result.live) (board_of M.front M.back marks.new) (H.port hub.new) counts.new.unbooked) (D.links dialer.new) (X.given words.new) counts.new.moves counts.new.starved)
        result.finish }
{
    let stopped = run_rounds(rt, live, marks, hub, session, &mut counts.unbooked);
    match stopped.stop {
        Stop::Ended(request, response) => Stayed {
            live: stopped.live,
            finish: Some(Finish::Legs(request, response)),
        },
        Stop::MoveTo(place) => follow(
            rt,
            alloc,
            dialer,
            words,
            hub,
            stopped.live,
            session,
            place,
            params,
            patience,
            counts,
        ),
    }
}

/// Runs a session from its first round to its end. `params` are those of its startup packet; in an attempt to move it
/// either pod may be idle fewer than `patience` reads.
pub fn run_course<
    W: Wait + Threads + Sync,
    S: Source + Send + Drop,
    K: Sink + Send + Drop,
    D: Dialer,
    X: Words,
    M: Marks,
    H: HubPort,
>(
    rt: &W,
    alloc: Global,
    dialer: &mut D,
    words: &mut X,
    marks: &mut M,
    hub: &mut H,
    live: Live<S, K, D::Tx, D::Rx>,
    session: SessionNo,
    params: &Params,
    patience: u64,
    counts: &mut Counts,
) -> Done<S, K, D::Tx, D::Rx>
    requires home { M.home marks.old }
    requires patient { 1 ≤ patience }
    requires plain { value_of (codes "crdb:session_revival_token_base64") params.now ≡ None }
    requires alike { (D.Tx.target live.tx).link ≡ (D.Rx.origin live.rx).link }
    requires open { 1 ≤ (D.links dialer.old).live }
    ensures home { M.home marks.new }
    ensures courses { Courses session params.now patience
        (course (scene (now_of S.origin K.target D.Tx.target D.Rx.origin live) (board_of M.front M.back marks.old) (H.port hub.old) counts.old.unbooked) (D.links dialer.old) (X.given words.old) counts.old.moves counts.old.starved)
        (course (scene (now_of S.origin K.target D.Tx.target D.Rx.origin result.live) (board_of M.front M.back marks.new) (H.port hub.new) counts.new.unbooked) (D.links dialer.new) (X.given words.new) counts.new.moves counts.new.starved)
        result.finish }
{
    let mut live = live;
    for _ in rt.forever() {
        let Stayed {
            live: after,
            finish,
        } = stay(
            rt, alloc, dialer, words, marks, hub, live, session, params, patience, counts,
        );
        if let Some(finish) = finish {
            return Done {
                live: after,
                finish,
            };
        }
        live = after;
    }
    unreachable!()
}
