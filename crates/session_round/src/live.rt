//! A round.

ghost use Rattle.session_round.specs.Halves.{now_of, board_of};
ghost use Rattle.session_round.specs.Ending.{KeepsTrace, TellsBefore};
ghost use Rattle.session_trace.specs.Running.{RunsRound};

use processor_core::{Request, Response};
use proxy_links::Marks;
use proxy_outside::{Sink, Source};
use session_legs::{LegEnd, run_legs};
use std::sync::Wait;
use std::thread::Threads;

/// What a connection owns while its session runs: the client's halves, those of the link to its pod, and what cuts
/// both directions into messages.
#[derive(Drop)]
pub struct Live<S, K, T, R> {
    pub client_in: S,
    pub client_out: K,
    pub tx: T,
    pub rx: R,
    pub request: Request,
    pub response: Response,
}

/// What a round gives back, and how each leg ended it.
#[derive(Drop)]
pub struct Rounded<S, K, T, R> {
    pub live: Live<S, K, T, R>,
    pub request: LegEnd,
    pub response: LegEnd,
}

/// Runs both legs once, until both have ended.
pub fn round<
    W: Wait + Threads + Sync,
    S: Source + Send + Drop,
    K: Sink + Send + Drop,
    T: Sink + Send + Drop,
    R: Source + Send + Drop,
    M: Marks,
>(rt: &W, live: Live<S, K, T, R>, marks: &mut M) -> Rounded<S, K, T, R>
    requires { M.home marks.old }
    ensures home { M.home marks.new }
    ensures runs { RunsRound (now_of S.origin K.target T.target R.origin live) (now_of S.origin K.target T.target R.origin result.live)
        (board_of M.front M.back marks.old) (board_of M.front M.back marks.new) result.request result.response }
    ensures tells { TellsBefore (now_of S.origin K.target T.target R.origin live) (now_of S.origin K.target T.target R.origin result.live) }
    ensures keeps { KeepsTrace (now_of S.origin K.target T.target R.origin live) (now_of S.origin K.target T.target R.origin result.live)
        (board_of M.front M.back marks.old) (board_of M.front M.back marks.new) result.request result.response }
{
    let (front, back) = marks.ends();
    let (one, two) = run_legs(
        rt,
        live.client_in,
        live.tx,
        front,
        live.request,
        live.rx,
        live.client_out,
        back,
        live.response,
    );
    marks.back(one.marks, two.marks);
    Rounded {
        live: Live {
            client_in: one.client,
            client_out: two.client,
            tx: one.tx,
            rx: two.rx,
            request: one.request,
            response: two.response,
        },
        request: one.why,
        response: two.why,
    }
}
