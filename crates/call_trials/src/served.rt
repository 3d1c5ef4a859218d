//! One connection, and what it shows.

ghost use Rattle.std.specs.Prelude.{◌≤◌};

use crate::hubs::CLIENT;
use crate::told::{Told, told_by};
use memory_links::{ListClock, ListWords};
use pgw_frames::NoMemory;
use proxy_hub::HubPort;
use proxy_links::{Dialer, Marks};
use proxy_outside::{MemSink, MemSource, Sink, Source};
use proxy_session::{Ended, proxy_session};
use session_greeting::Limits;
use std::alloc::Global;
use std::sync::Wait;
use std::thread::Threads;

pub(crate) const LIMITS: Limits = Limits {
    patience: 2,
    login_waits: 3,
};

/// How a connection ended.
#[derive(Clone, Copy, Debug, PartialEq, Eq)]
pub(crate) struct Outcome {
    pub told: Told,
    pub session: Option<u32>,
    /// The process and the secret of the client's key.
    pub key: Option<(u32, u32)>,
    pub moves: u64,
    pub unbooked: u64,
    pub starved: u64,
}

/// One that came to no session.
pub(crate) fn unserved(told: Told) -> Outcome {
    Outcome {
        told,
        session: None,
        key: None,
        moves: 0,
        unbooked: 0,
        starved: 0,
    }
}

/// The first session of a hub, with the key that the client gets, and so many moves.
pub(crate) fn first(told: Told, moves: u64) -> Outcome {
    Outcome {
        told,
        session: Some(1),
        key: Some((1, 0x0102_0304)),
        moves,
        unbooked: 0,
        starved: 0,
    }
}

pub(crate) fn outcome_of<S, K>(ended: &Ended<S, K>) -> Outcome {
    Outcome {
        told: told_by(&ended.why),
        session: ended.session.map(|n| n.0),
        key: ended.key.map(|k| (k.process, k.secret)),
        moves: ended.moves,
        unbooked: ended.unbooked,
        starved: ended.starved,
    }
}

/// Serves a client of these halves at the moment 100, with the word 16909060.
pub(crate) fn serve<
    W: Wait + Threads + Sync,
    S: Source + Send + Drop,
    K: Sink + Send + Drop,
    D: Dialer,
    H: HubPort,
    M: Marks,
>(
    rt: &W,
    alloc: Global,
    client_in: S,
    client_out: K,
    dialer: &mut D,
    hub: &mut H,
    marks: &mut M,
    limits: Limits,
) -> Result<Ended<S, K>, NoMemory>
    requires home { M.home marks.old }
    requires pod { 1 ≤ limits.patience }
    requires client { 1 ≤ limits.login_waits }
{
    let mut clock = ListClock::make(alloc, &[100])?;
    let mut words = ListWords::make(alloc, &[16_909_060])?;
    Ok(proxy_session(
        rt, alloc, client_in, client_out, CLIENT, dialer, hub, marks, &mut clock, &mut words,
        limits,
    ))
}

/// What a client sends, in pieces of so many bytes, and the calls, from 1 on, that are idle or fail.
#[derive(Clone, Copy)]
pub(crate) struct Client<'a> {
    pub bytes: &'a [u8],
    pub piece: usize,
    pub idle: &'a [u64],
    pub failing_reads: &'a [u64],
    pub failing_writes: &'a [u64],
}

pub(crate) fn client_of(bytes: &[u8]) -> Client {
    Client {
        bytes,
        piece: 64,
        idle: &[],
        failing_reads: &[],
        failing_writes: &[],
    }
}

/// Serves a client in memory, and says what it came to, and whether the client heard just this.
pub(crate) fn heard_by<W: Wait + Threads + Sync, D: Dialer, H: HubPort, M: Marks>(
    rt: &W,
    alloc: Global,
    client: Client,
    heard: &[u8],
    dialer: &mut D,
    hub: &mut H,
    marks: &mut M,
) -> Result<(Outcome, bool), NoMemory>
    requires home { M.home marks.old }
{
    let piece = client.piece.max(1);
    let client_in = MemSource::make(
        alloc,
        client.bytes,
        piece,
        client.idle,
        client.failing_reads,
    )?;
    let client_out = MemSink::make(alloc, piece, client.failing_writes)?;
    let ended = serve(rt, alloc, client_in, client_out, dialer, hub, marks, LIMITS)?;
    Ok((outcome_of(&ended), ended.client_out.contents() == heard))
}
