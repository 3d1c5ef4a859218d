//! What a client came for.

ghost use Rattle.std.specs.Prelude.{◌≤◌};
ghost use Rattle.session_entry.specs.Receiving.{HandsOver, Refuses, Receives};

use crate::telling::tell;
use proxy_hub::{HubFault, HubPort};
use proxy_links::Dialer;
use proxy_outside::{Addr, ClientKey, Sink, Source};
use session_cancel::cancel;
use session_door::{DoorCut, Entry, enter};
use startup_route::{DoorFault, Rejection, Route};
use std::alloc::Global;
use std::sync::Wait;

/// What a client came for, and what was done of it.
#[derive(Drop)]
pub enum Received {
    /// A session of this route. The client was idle so often up to here.
    Session(Route, u64),
    /// Its request to cancel was handed on, as far as could be.
    Cancelled,
    /// Nothing that can be had, of which it was told.
    Refused(DoorFault),
    /// The hub takes no more than so many commands, of which the client was told.
    JournalFull(u32),
    /// Its first packets came to nothing.
    Cut(DoorCut),
}

/// Hands a request to cancel on.
fn hand_over<W: Wait, K: Sink, H: HubPort, D: Dialer>(
    rt: &W,
    alloc: Global,
    client_out: &mut K,
    hub: &mut H,
    dialer: &mut D,
    peer: Addr,
    key: ClientKey,
) -> Received
    ensures { HandsOver peer key (K.target client_out.old) (K.target client_out.new)
        (H.port hub.old) (H.port hub.new) (D.links dialer.old) (D.links dialer.new) result }
{
    match cancel(rt, hub, dialer, peer, key) {
        Ok(()) => Received::Cancelled,
        Err(HubFault::NoMemory) => Received::Cut(DoorCut::NoMemory),
        Err(HubFault::JournalFull(most)) => {
            if !tell(alloc, client_out, Rejection::JournalFull) {
                return Received::Cut(DoorCut::NoMemory);
            }
            Received::JournalFull(most)
        }
    }
}

/// Tells the client of the fault.
fn refuse<K: Sink>(alloc: Global, client_out: &mut K, fault: DoorFault) -> Received
    ensures { Refuses fault (K.target client_out.old) (K.target client_out.new) result }
{
    if !tell(alloc, client_out, fault.rejection()) {
        return Received::Cut(DoorCut::NoMemory);
    }
    Received::Refused(fault)
}

/// Reads what the client of this address came for, and does it where that is no session. Once the client was idle
/// `login_waits` times, it is left.
#[tactic(auto, using(crate::proofs::Sent::nothing))]
pub fn receive<W: Wait, S: Source, K: Sink, H: HubPort, D: Dialer>(
    rt: &W,
    alloc: Global,
    client_in: &mut S,
    client_out: &mut K,
    hub: &mut H,
    dialer: &mut D,
    peer: Addr,
    login_waits: u64,
) -> Received
    requires { 1 ≤ login_waits }
    ensures { Receives peer login_waits (S.origin client_in.old) (S.origin client_in.new)
        (K.target client_out.old) (K.target client_out.new)
        (H.port hub.old) (H.port hub.new) (D.links dialer.old) (D.links dialer.new) result }
{
    match enter(rt, alloc, client_in, client_out, login_waits) {
        Entry::Session(route, waits) => Received::Session(route, waits),
        Entry::Cancel(key) => hand_over(rt, alloc, client_out, hub, dialer, peer, key),
        Entry::Refused(fault) => refuse(alloc, client_out, fault),
        Entry::Cut(c) => Received::Cut(c),
    }
}
