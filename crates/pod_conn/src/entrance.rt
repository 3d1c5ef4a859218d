//! The first packets of a client.

ghost use Rattle.std.specs.Prelude.{◌≡◌, ◌≤◌};
ghost use Rattle.pod_conn.specs.Packets.{packet_of};
ghost use Rattle.pod_conn.specs.declared.packet.Packet.TheVariants.{Part, Request};
ghost use Rattle.pod_conn.specs.Coming.{Turns, Enters};

use crate::end::PodEnd;
use crate::packet::{Packet, packet_of};
use crate::wire::{Wire, feed};
use link_io::write_all;
use pgw_messages::Params;
use proxy_outside::{Sink, Source};
use std::alloc::Global;
use std::sync::Wait;

/// How many requests for encryption are answered.
const MOST_SAYS: u8 = 2;

/// Whether more is to be read.
#[derive(Drop)]
pub(crate) enum Turned {
    /// It is, and so many requests may be answered still.
    On(u8),
    /// A startup packet of these parameters came.
    Came(Params),
    Over(PodEnd),
}

/// Answers a request for encryption.
fn refuse<S: Source, K: Sink>(wire: &mut Wire<S, K>, left: u8) -> Turned
    requires { packet_of wire.old.held ≡ Request }
    ensures { Turns result left wire.old.held wire.new.held (S.origin wire.old.client_in) (S.origin wire.new.client_in)
        (K.target wire.old.client_out) (K.target wire.new.client_out) }
{
    if left == 0 {
        return Turned::Over(PodEnd::BadStartup);
    }
    wire.held.drop_front(8);
    if write_all(&mut wire.client_out, b"N") {
        Turned::On(left - 1)
    } else {
        Turned::Over(PodEnd::WriteFault)
    }
}

/// Reads on behind the front of a packet.
fn read_on<W: Wait, S: Source, K: Sink>(rt: &W, wire: &mut Wire<S, K>, left: u8) -> Turned
    requires { packet_of wire.old.held ≡ Part }
    ensures { Turns result left wire.old.held wire.new.held (S.origin wire.old.client_in) (S.origin wire.new.client_in)
        (K.target wire.old.client_out) (K.target wire.new.client_out) }
{
    match feed(rt, &mut wire.client_in, &mut wire.held) {
        Ok(()) => Turned::On(left),
        Err(end) => Turned::Over(end),
    }
}

/// Takes what is there of a packet.
fn turn_on<W: Wait, S: Source, K: Sink>(
    rt: &W,
    alloc: Global,
    wire: &mut Wire<S, K>,
    left: u8,
) -> Turned
    ensures { Turns result left wire.old.held wire.new.held (S.origin wire.old.client_in) (S.origin wire.new.client_in)
        (K.target wire.old.client_out) (K.target wire.new.client_out) }
{
    match packet_of(alloc, wire.held.as_slice()) {
        Ok(Packet::Part) => read_on(rt, wire, left),
        Ok(Packet::Request) => refuse(wire, left),
        Ok(Packet::Cancelling) => Turned::Over(PodEnd::Closed),
        Ok(Packet::Starting(params, len)) => {
            wire.held.drop_front(len);
            Turned::Came(params)
        }
        Ok(Packet::Unfit) => Turned::Over(PodEnd::BadStartup),
        Err(_) => Turned::Over(PodEnd::NoMemory),
    }
}

/// Reads the first packets up to the startup packet, and says which parameters it has.
pub(crate) fn enter<W: Wait, S: Source, K: Sink>(
    rt: &W,
    alloc: Global,
    wire: &mut Wire<S, K>,
) -> Result<Params, PodEnd>
    ensures { Enters result wire.old.held wire.new.held (S.origin wire.old.client_in) (S.origin wire.new.client_in)
        (K.target wire.old.client_out) (K.target wire.new.client_out) }
{
    let mut left = MOST_SAYS;
    for _ in rt.forever() {
        match turn_on(rt, alloc, wire, left) {
            Turned::On(n) => left = n,
            Turned::Came(params) => return Ok(params),
            Turned::Over(end) => return Err(end),
        }
    }
    unreachable!()
}
