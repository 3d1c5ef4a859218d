//! What a packet asks for, as far as it is there.

ghost use Rattle.std.specs.Prelude.{◌≡◌, ◌≤◌, length, IfOk};
ghost use Rattle.startup_route.specs.Packets.{word_at, kind_of, answer_left, encryption_step, cancel_step, opened, startup_step, step_by, step_of};
ghost use Rattle.startup_route.specs.Routes.{route_of};

use crate::fault::DoorFault;
use crate::header::{Kind, kind_of, word_at};
use crate::packet_fault::PacketFault;
use crate::route::read_route;
use crate::step::DoorStep;
use pgw_frames::NoMemory;
use proxy_outside::ClientKey;
use std::alloc::Global;

/// The longest packet, in bytes.
const MOST_LEN: u32 = 10_000;

/// A request for encryption, of this length, where `N` may be said so often still.
fn encryption_step(left: u8, len: u32) -> DoorStep
    ensures { result ≡ encryption_step left len }
{
    if len != 8 {
        return DoorStep::Refused(DoorFault::BadLength(len));
    }
    if left == 0 {
        return DoorStep::Refused(DoorFault::TooManyRequests);
    }
    DoorStep::Say
}

/// A request to cancel.
fn cancel_step(len: u32, packet: &[u8]) -> DoorStep
    ensures { result ≡ cancel_step len packet.now }
{
    if len != 16 {
        return DoorStep::Refused(DoorFault::BadLength(len));
    }
    if packet.len() < 16 {
        return DoorStep::Need;
    }
    DoorStep::Cancel(ClientKey {
        process: word_at(packet, 8),
        secret: word_at(packet, 12),
    })
}

/// The body of a whole startup packet.
fn body_step(alloc: Global, body: &[u8]) -> Result<DoorStep, NoMemory>
    ensures { IfOk result (λ s. s ≡ opened (route_of body.now)) }
{
    match read_route(alloc, body) {
        Ok(route) => Ok(DoorStep::Ready(route)),
        Err(PacketFault::Fault(fault)) => Ok(DoorStep::Refused(fault)),
        Err(PacketFault::OutOfMemory) => Err(NoMemory),
    }
}

/// A startup packet.
fn startup_step(alloc: Global, len: u32, packet: &[u8]) -> Result<DoorStep, NoMemory>
    requires { 8 ≤ len }
    ensures { IfOk result (λ s. s ≡ startup_step len packet.now) }
{
    if len == 8 {
        return Ok(DoorStep::Refused(DoorFault::BadLength(len)));
    }
    if packet.len() < len as usize {
        return Ok(DoorStep::Need);
    }
    body_step(alloc, &packet[8..len as usize])
}

/// A packet of which at least eight bytes are there.
fn step_by(alloc: Global, left: u8, len: u32, packet: &[u8]) -> Result<DoorStep, NoMemory>
    requires len_least { 8 ≤ len }
    requires within { 8 ≤ length packet.now }
    ensures { IfOk result (λ s. s ≡ step_by (kind_of (word_at 4 packet.now)) left len packet.now) }
{
    let code = word_at(packet, 4);
    match kind_of(code) {
        Kind::Encryption => Ok(encryption_step(left, len)),
        Kind::Cancelling => Ok(cancel_step(len, packet)),
        Kind::Starting => startup_step(alloc, len, packet),
        Kind::Unknown => Ok(DoorStep::Refused(DoorFault::BadVersion(code))),
    }
}

/// What the bytes ask for that are there of a packet, where `N` may be said so often still.
#[tactic(auto, unfolding(crate::specs::Packets::step_of))]
pub(crate) fn step_of(alloc: Global, left: u8, packet: &[u8]) -> Result<DoorStep, NoMemory>
    ensures { IfOk result (λ s. s ≡ step_of left packet.now) }
{
    if packet.len() < 4 {
        return Ok(DoorStep::Need);
    }
    let len = word_at(packet, 0);
    if len > MOST_LEN {
        return Ok(DoorStep::Refused(DoorFault::TooLong(len)));
    }
    if len < 8 {
        return Ok(DoorStep::Refused(DoorFault::BadLength(len)));
    }
    if packet.len() < 8 {
        return Ok(DoorStep::Need);
    }
    step_by(alloc, left, len, packet)
}
