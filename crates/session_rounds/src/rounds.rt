//! Round after round.

ghost use Rattle.session_round.specs.Halves.{now_of, board_of};
ghost use Rattle.session_rounds.specs.Scenes.{scene};
ghost use Rattle.session_rounds.specs.Turns.{Turns};
ghost use Rattle.session_rounds.specs.Running.{Runs};

use crate::due::{is_due, is_look};
use crate::target::ask_target;
use proxy_hub::HubPort;
use proxy_links::Marks;
use proxy_outside::{Place, SessionNo, Sink, Source};
use session_legs::LegEnd;
use session_round::{Live, Rounded, round};
use std::sync::Wait;
use std::thread::Threads;

/// Why no further round follows on this link.
#[derive(Clone, Copy, Debug, PartialEq, Eq)]
pub enum Stop {
    /// The legs ended so, the client's first, and not both because the board said so.
    Ended(LegEnd, LegEnd),
    /// Both parked at a safe point, and the hub names this place for the session.
    MoveTo(Place),
}

/// What is left behind the last round.
#[derive(Drop)]
pub struct Stopped<S, K, T, R> {
    pub live: Live<S, K, T, R>,
    pub stop: Stop,
}

/// What is left behind a round, and whether it was the last one.
#[derive(Drop)]
struct Turn<S, K, T, R> {
    live: Live<S, K, T, R>,
    stop: Option<Stop>,
}

/// One round, and the ask behind it where one is due.
fn one_turn<
    W: Wait + Threads + Sync,
    S: Source + Send + Drop,
    K: Sink + Send + Drop,
    T: Sink + Send + Drop,
    R: Source + Send + Drop,
    M: Marks,
    H: HubPort,
>(
    rt: &W,
    live: Live<S, K, T, R>,
    marks: &mut M,
    hub: &mut H,
    session: SessionNo,
    unbooked: &mut u64,
) -> Turn<S, K, T, R>
    requires { M.home marks.old }
    ensures home { M.home marks.new }
    ensures turns { Turns session
        (scene (now_of S.origin K.target T.target R.origin live) (board_of M.front M.back marks.old) (H.port hub.old) unbooked.old)
        (scene (now_of S.origin K.target T.target R.origin result.live) (board_of M.front M.back marks.new) (H.port hub.new) unbooked.new)
        result.stop }
{
    let done = round(rt, live, marks);
    if !is_look(done.request) {
        return Turn {
            live: done.live,
            stop: Some(Stop::Ended(done.request, done.response)),
        };
    }
    if !is_look(done.response) {
        return Turn {
            live: done.live,
            stop: Some(Stop::Ended(done.request, done.response)),
        };
    }
    if !is_due(&done.live, done.request, done.response) {
        return Turn {
            live: done.live,
            stop: None,
        };
    }
    match ask_target(rt, hub, session, unbooked) {
        Some(place) => Turn {
            live: done.live,
            stop: Some(Stop::MoveTo(place)),
        },
        None => Turn {
            live: done.live,
            stop: None,
        },
    }
}

/// Runs rounds, until a leg ends by itself or the hub names a place for the session. `unbooked` counts the asks that the
/// port refused, or that found no such session.
pub fn run_rounds<
    W: Wait + Threads + Sync,
    S: Source + Send + Drop,
    K: Sink + Send + Drop,
    T: Sink + Send + Drop,
    R: Source + Send + Drop,
    M: Marks,
    H: HubPort,
>(
    rt: &W,
    live: Live<S, K, T, R>,
    marks: &mut M,
    hub: &mut H,
    session: SessionNo,
    unbooked: &mut u64,
) -> Stopped<S, K, T, R>
    requires { M.home marks.old }
    ensures home { M.home marks.new }
    ensures runs { Runs session
        (scene (now_of S.origin K.target T.target R.origin live) (board_of M.front M.back marks.old) (H.port hub.old) unbooked.old)
        (scene (now_of S.origin K.target T.target R.origin result.live) (board_of M.front M.back marks.new) (H.port hub.new) unbooked.new)
        result.stop }
{
    let mut live = live;
    for _ in rt.forever() {
        let done = one_turn(rt, live, marks, hub, session, unbooked);
        if let Some(stop) = done.stop {
            return Stopped {
                live: done.live,
                stop,
            };
        }
        live = done.live;
    }
    unreachable!()
}
