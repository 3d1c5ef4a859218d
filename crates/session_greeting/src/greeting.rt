//! The greeting, message by message.

ghost use Rattle.std.specs.Prelude.{◌≡◌, ◌≤◌, ◌+◌, true};
ghost use Rattle.pgw_frames.specs.Frames.{IsGood};
ghost use Rattle.session_greeting.specs.Meanings.{is_fit};
ghost use Rattle.session_greeting.specs.Greeting.{halves, Follows, Takes, Turned, Greets};

use crate::login::{Greeted, log_in};
use crate::meaning::{Meaning, meaning_of};
use crate::passing::pass_on;
use link_transfer::{Heard, read_message};
use pgw_frames::Frame;
use pgw_messages::PodKey;
use proxy_outside::{ClientKey, Sink, Source};
use std::alloc::Global;
use std::sync::Wait;
use transfer_stages::Cut;

/// How often a side may be idle before it is left.
#[derive(Clone, Copy, Debug, PartialEq, Eq)]
pub struct Limits {
    /// A pod, over one exchange or greeting.
    pub patience: u64,
    /// The client, up to the end of the greeting.
    pub login_waits: u64,
}

/// How far a greeting has come: the pod's key, and how often each side was idle.
#[derive(Clone, Copy)]
pub(crate) struct Course {
    pub key: Option<PodKey>,
    pub client_waits: u64,
    pub pod_waits: u64,
}

/// Whether it goes on.
#[derive(Drop)]
pub(crate) enum Turn {
    On(Course),
    Over(Greeted),
}

/// Whether a message that means this has its place: a key comes once.
fn is_fit(m: &Meaning, key: Option<PodKey>) -> bool
    ensures { result ≡ is_fit m.now key }
{
    match m {
        Meaning::GoesOn => true,
        Meaning::Asks => true,
        Meaning::Key(_) => key.is_none(),
        Meaning::Ready => true,
        Meaning::Fault(_) => true,
        Meaning::Strange => false,
    }
}

/// Does what a message means that was passed on.
fn follow<S: Source, T: Sink>(
    alloc: Global,
    client_in: &mut S,
    tx: &mut T,
    m: Meaning,
    course: Course,
    patience: u64,
) -> Turn
    requires fit { is_fit m course.key ≡ true }
    requires patient { course.client_waits + 1 ≤ patience }
    ensures { Follows patience m course (S.origin client_in.old) (S.origin client_in.new) (T.target tx.old) (T.target tx.new) result }
{
    match m {
        Meaning::GoesOn => Turn::On(course),
        Meaning::Asks => match log_in(alloc, client_in, tx, course.client_waits, patience) {
            Ok(client_waits) => Turn::On(Course {
                client_waits,
                ..course
            }),
            Err(greeted) => Turn::Over(greeted),
        },
        Meaning::Key(key) => Turn::On(Course {
            key: Some(key),
            ..course
        }),
        Meaning::Ready => Turn::Over(Greeted::Ready(course.key, course.client_waits)),
        Meaning::Fault(fields) => Turn::Over(Greeted::Refused(fields)),
        Meaning::Strange => unreachable!(),
    }
}

/// Passes a message of the pod's on, and does what it means.
fn take<S: Source, K: Sink, T: Sink>(
    alloc: Global,
    client_in: &mut S,
    client_out: &mut K,
    tx: &mut T,
    f: Frame,
    key: ClientKey,
    course: Course,
    patience: u64,
) -> Turn
    requires good { IsGood f }
    requires patient { course.client_waits + 1 ≤ patience }
    ensures { Takes key patience f course (S.origin client_in.old) (S.origin client_in.new)
        (K.target client_out.old) (K.target client_out.new) (T.target tx.old) (T.target tx.new) result }
{
    match meaning_of(alloc, &f) {
        Some(m) => {
            if !is_fit(&m, course.key) {
                return Turn::Over(Greeted::PodCut(Cut::Unexpected(f)));
            }
            if !pass_on(client_out, &f, key) {
                return Turn::Over(Greeted::ClientCut(Cut::WriteFault));
            }
            follow(alloc, client_in, tx, m, course, patience)
        }
        None => Turn::Over(Greeted::NoMemory),
    }
}

/// Hears a message of the pod's, passes it on, and does what it means.
fn hear_one<S: Source, K: Sink, T: Sink, R: Source>(
    alloc: Global,
    client_in: &mut S,
    client_out: &mut K,
    tx: &mut T,
    rx: &mut R,
    key: ClientKey,
    course: Course,
    limits: Limits,
) -> Turn
    requires pod { course.pod_waits + 1 ≤ limits.patience }
    requires client { course.client_waits + 1 ≤ limits.login_waits }
    ensures { Turned key limits course
        (halves (S.origin client_in.old) (K.target client_out.old) (T.target tx.old) (R.origin rx.old))
        (halves (S.origin client_in.new) (K.target client_out.new) (T.target tx.new) (R.origin rx.new)) result }
{
    match read_message(alloc, rx, course.pod_waits, limits.patience) {
        Heard::Whole(f, pod_waits) => {
            let course = Course {
                pod_waits,
                ..course
            };
            take(
                alloc,
                client_in,
                client_out,
                tx,
                f,
                key,
                course,
                limits.login_waits,
            )
        }
        Heard::Lost(_, _) => Turn::Over(Greeted::NoMemory),
        Heard::Cut(c) => Turn::Over(Greeted::PodCut(c)),
    }
}

/// Passes the pod's greeting on, with this key in place of the pod's. The client was idle `waited` times before; once
/// it is so `login_waits` times over all, or the pod `patience` times, it is left.
pub fn greet<W: Wait, S: Source, K: Sink, T: Sink, R: Source>(
    rt: &W,
    alloc: Global,
    client_in: &mut S,
    client_out: &mut K,
    tx: &mut T,
    rx: &mut R,
    key: ClientKey,
    waited: u64,
    limits: Limits,
) -> Greeted
    requires pod { 1 ≤ limits.patience }
    requires client { waited + 1 ≤ limits.login_waits }
    ensures { Greets key limits waited
        (halves (S.origin client_in.old) (K.target client_out.old) (T.target tx.old) (R.origin rx.old))
        (halves (S.origin client_in.new) (K.target client_out.new) (T.target tx.new) (R.origin rx.new)) result }
{
    let mut course = Course {
        key: None,
        client_waits: waited,
        pod_waits: 0,
    };
    for _ in rt.forever() {
        match hear_one(alloc, client_in, client_out, tx, rx, key, course, limits) {
            Turn::On(next) => course = next,
            Turn::Over(greeted) => return greeted,
        }
    }
    unreachable!()
}
