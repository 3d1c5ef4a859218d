//! The startup packet, and the greeting behind it.

ghost use Rattle.std.specs.Prelude.{◌≡◌, ◌≤◌, ◌+◌};
ghost use Rattle.pgw_messages.specs.Startup.{Fits};
ghost use Rattle.session_greeting.specs.Greeting.{halves};
ghost use Rattle.session_opening.specs.Beginning.{SendsPacket, BeginsSession};

use link_io::write_all;
use pgw_messages::{Params, startup_bytes};
use proxy_outside::{ClientKey, Sink, Source};
use session_greeting::{Greeted, Limits, greet};
use std::alloc::Global;
use std::sync::Wait;
use transfer_stages::Cut;

/// What became of the startup packet.
pub(crate) enum Packet {
    Sent,
    /// The pod's sink failed, and holds a part of it.
    Cut,
    NoMemory,
}

/// Sends the pod the startup packet of these parameters.
fn send_packet<T: Sink>(alloc: Global, tx: &mut T, params: &Params) -> Packet
    requires { Fits params.now }
    ensures { SendsPacket params.now (T.target tx.old) (T.target tx.new) result }
{
    match startup_bytes(alloc, params) {
        Ok(packet) => {
            if write_all(tx, packet.as_slice()) {
                return Packet::Sent;
            }
            Packet::Cut
        }
        Err(_) => Packet::NoMemory,
    }
}

/// Sends the pod the startup packet of these parameters, and passes its greeting on.
pub(crate) fn begin<W: Wait, S: Source, K: Sink, T: Sink, R: Source>(
    rt: &W,
    alloc: Global,
    client_in: &mut S,
    client_out: &mut K,
    tx: &mut T,
    rx: &mut R,
    params: &Params,
    key: ClientKey,
    waited: u64,
    limits: Limits,
) -> Greeted
    requires fits { Fits params.now }
    requires pod { 1 ≤ limits.patience }
    requires client { waited + 1 ≤ limits.login_waits }
    ensures begins { BeginsSession params.now key limits waited
        (halves (S.origin client_in.old) (K.target client_out.old) (T.target tx.old) (R.origin rx.old))
        (halves (S.origin client_in.new) (K.target client_out.new) (T.target tx.new) (R.origin rx.new)) result }
    ensures tx_link { (T.target tx.new).link ≡ (T.target tx.old).link }
    ensures rx_link { (R.origin rx.new).link ≡ (R.origin rx.old).link }
{
    match send_packet(alloc, tx, params) {
        Packet::Sent => greet(
            rt, alloc, client_in, client_out, tx, rx, key, waited, limits,
        ),
        Packet::Cut => Greeted::PodCut(Cut::WriteFault),
        Packet::NoMemory => Greeted::NoMemory,
    }
}
