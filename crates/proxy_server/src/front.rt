//! Where clients come in.

use crate::client::serve_client;
use crate::common::Common;
use crate::seated::Seated;
use proxy_links::Started;
use server_console::{Closed, closed_line, trouble_line};
use server_host::{Host, moment};
use std::alloc::Global;
use std::net::{SocketAddr, TcpListener, TcpStream};
use std::sync::Wait;
use std::time::{Clock, Duration};
use std::{io, thread};
use tcp_links::start_on_thread;

/// The bytes of a connection's stack.
const STACK_LEN: usize = 262_144;

/// How many connections may be open at once.
const MOST_OPEN: u64 = 10_000;

/// Says of a client that it couldn't be served.
fn turn_away<R: Wait + Clock + Eprint>(
    rt: &R,
    alloc: Global,
    common: &Common,
    peer: SocketAddr,
    why: &str,
) {
    let closed = Closed {
        peer,
        tenant: None,
        session: None,
        why,
        moves: 0,
        seconds: 0,
    };
    common
        .console
        .say(rt, closed_line(alloc, moment(rt), &closed));
    common.ends.end(rt);
}

/// Serves a client on a thread of its own, or closes its socket.
fn admit<R>(rt: &R, alloc: Global, seated: &mut Seated, client: TcpStream, peer: SocketAddr)
where
    R: Host + 'static,
{
    if seated.common().ends.begin(rt) > MOST_OPEN {
        drop(client);
        turn_away(rt, alloc, seated.common(), peer, "too-many");
        return;
    }
    let Ok(theirs) = seated.another() else {
        drop(client);
        turn_away(rt, alloc, seated.common(), peer, "no-memory");
        return;
    };
    let mine = *rt;
    let job = move || serve_client(&mine, alloc, theirs, client, peer);
    match start_on_thread(rt, STACK_LEN, job) {
        Started::Started => {}
        Started::Failed(job) => {
            drop(job);
            turn_away(rt, alloc, seated.common(), peer, "no-thread");
        }
    }
}

/// Accepts clients for as long as the program runs.
pub(crate) fn accept_all<R>(rt: &R, alloc: Global, mut seated: Seated, listener: TcpListener)
where
    R: Host + 'static,
{
    for _ in rt.forever() {
        match listener.accept() {
            Ok((client, peer)) => admit(rt, alloc, &mut seated, client, peer),
            Err(e) => {
                // No descriptor is free, mostly: what ends gives one back.
                tell(rt, alloc, seated.common(), e);
                thread::sleep(rt, Duration::from_millis(10));
            }
        }
    }
}

fn tell<R: Wait + Clock + Eprint>(rt: &R, alloc: Global, common: &Common, fault: io::Error) {
    if let Ok(cause) = format!(in alloc; "{fault}") {
        let line = trouble_line(alloc, moment(rt), "listening", cause.as_str());
        common.console.say(rt, line);
    }
}
