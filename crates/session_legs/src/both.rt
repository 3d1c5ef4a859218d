//! Both legs.

ghost use Rattle.processor_core.specs.Stands.{RequestStands, ResponseStands};
ghost use Rattle.session_legs.specs.Laws.{is_terminate, never};
ghost use Rattle.session_legs.specs.Legs.{hands, Runs};

use crate::half::{Back, Front};
use crate::leg::leg;
use crate::side::{LegEnd, Side};
use processor_core::{Request, Response};
use proxy_links::{BackMarks, FrontMarks};
use proxy_outside::{Sink, Source};
use std::sync::Wait;
use std::thread::{Threads, join};

/// What a request leg gives back, and why it ended.
#[derive(Drop)]
pub struct RequestEnd<C, T, F> {
    pub client: C,
    pub tx: T,
    pub marks: F,
    pub request: Request,
    pub why: LegEnd,
}

/// What a response leg gives back, and why it ended.
#[derive(Drop)]
pub struct ResponseEnd<R, K, B> {
    pub rx: R,
    pub client: K,
    pub marks: B,
    pub response: Response,
    pub why: LegEnd,
}

/// Hands the client's messages on to the pod, until it has a reason to end.
pub fn request_leg<W: Wait, C: Source + Drop, T: Sink + Drop, F: FrontMarks + Drop>(
    rt: &W,
    client: C,
    tx: T,
    marks: F,
    request: Request,
) -> RequestEnd<C, T, F>
    ensures { Runs RequestStands is_terminate
        (hands (C.origin client) (T.target tx) (F.half marks))
        (hands (C.origin result.client) (T.target result.tx) (F.half result.marks))
        request result.request result.why }
{
    let (side, why) = leg(
        rt,
        Side {
            source: client,
            sink: tx,
            marks: Front { marks },
            processor: request,
        },
    );
    RequestEnd {
        client: side.source,
        tx: side.sink,
        marks: side.marks.marks,
        request: side.processor,
        why,
    }
}

/// Hands the pod's messages on to the client, until it has a reason to end.
pub fn response_leg<W: Wait, R: Source + Drop, K: Sink + Drop, B: BackMarks + Drop>(
    rt: &W,
    rx: R,
    client: K,
    marks: B,
    response: Response,
) -> ResponseEnd<R, K, B>
    ensures { Runs ResponseStands never
        (hands (R.origin rx) (K.target client) (B.half marks))
        (hands (R.origin result.rx) (K.target result.client) (B.half result.marks))
        response result.response result.why }
{
    let (side, why) = leg(
        rt,
        Side {
            source: rx,
            sink: client,
            marks: Back { marks },
            processor: response,
        },
    );
    ResponseEnd {
        rx: side.source,
        client: side.sink,
        marks: side.marks.marks,
        response: side.processor,
        why,
    }
}

#[derive(Drop)]
struct RequestSide<C, T, F> {
    client: C,
    tx: T,
    front: F,
    request: Request,
}

#[derive(Drop)]
struct ResponseSide<R, K, B> {
    rx: R,
    out: K,
    back: B,
    response: Response,
}

fn run_request<W: Wait, C: Source + Drop, T: Sink + Drop, F: FrontMarks + Drop>(
    rt: &W,
    side: RequestSide<C, T, F>,
) -> RequestEnd<C, T, F>
    ensures { Runs RequestStands is_terminate
        (hands (C.origin side.client) (T.target side.tx) (F.half side.front))
        (hands (C.origin result.client) (T.target result.tx) (F.half result.marks))
        side.request result.request result.why }
{
    request_leg(rt, side.client, side.tx, side.front, side.request)
}

fn run_response<W: Wait, R: Source + Drop, K: Sink + Drop, B: BackMarks + Drop>(
    rt: &W,
    side: ResponseSide<R, K, B>,
) -> ResponseEnd<R, K, B>
    ensures { Runs ResponseStands never
        (hands (R.origin side.rx) (K.target side.out) (B.half side.back))
        (hands (R.origin result.rx) (K.target result.client) (B.half result.marks))
        side.response result.response result.why }
{
    response_leg(rt, side.rx, side.out, side.back, side.response)
}

/// Both legs at once, until both have ended.
pub fn run_legs<
    W: Wait + Threads + Sync,
    C: Source + Send + Drop,
    T: Sink + Send + Drop,
    F: FrontMarks + Send + Drop,
    R: Source + Send + Drop,
    K: Sink + Send + Drop,
    B: BackMarks + Send + Drop,
>(
    rt: &W,
    client: C,
    tx: T,
    front: F,
    request: Request,
    rx: R,
    out: K,
    back: B,
    response: Response,
) -> (RequestEnd<C, T, F>, ResponseEnd<R, K, B>)
    ensures request { Runs RequestStands is_terminate
        (hands (C.origin client) (T.target tx) (F.half front))
        (hands (C.origin result.0.client) (T.target result.0.tx) (F.half result.0.marks))
        request result.0.request result.0.why }
    ensures response { Runs ResponseStands never
        (hands (R.origin rx) (K.target out) (B.half back))
        (hands (R.origin result.1.rx) (K.target result.1.client) (B.half result.1.marks))
        response result.1.response result.1.why }
{
    let request = RequestSide {
        client,
        tx,
        front,
        request,
    };
    let response = ResponseSide {
        rx,
        out,
        back,
        response,
    };
    join(
        rt,
        move || run_request(rt, request),
        move || run_response(rt, response),
    )
}
