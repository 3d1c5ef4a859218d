//! A packet that opens a connection.

ghost use Rattle.std.specs.Prelude.{◌≡◌, ◌≤◌, ◌+◌, length, IfOk};
ghost use Rattle.pod_conn.specs.Packets.{word_at, request_of, cancel_of, startup_of, packet_by, packet_of};

use pgw_frames::NoMemory;
use pgw_messages::{MsgFault, Params, read_params};
use std::alloc::Global;

/// The longest packet, in bytes.
const MOST_LEN: u32 = 11_900_000;

/// What stands at the front of a client's bytes.
#[derive(Debug, Drop)]
pub(crate) enum Packet {
    /// Some more bytes are wanted.
    Part,
    /// SSLRequest or GSSENCRequest.
    Request,
    /// CancelRequest.
    Cancelling,
    /// StartupMessage, of so many bytes.
    Starting(Params, usize),
    /// None of these.
    Unfit,
}

/// The big-endian number at this place.
fn word_at(bytes: &[u8], place: usize) -> u32
    requires { place + 4 ≤ length bytes.now }
    ensures { result ≡ word_at place bytes.now }
{
    u32::from_be_bytes([
        bytes[place],
        bytes[place + 1],
        bytes[place + 2],
        bytes[place + 3],
    ])
}

fn request_of(len: u32) -> Packet
    ensures { result ≡ request_of len }
{
    if len != 8 {
        return Packet::Unfit;
    }
    Packet::Request
}

fn cancel_of(len: u32, bytes: &[u8]) -> Packet
    ensures { result ≡ cancel_of len bytes.now }
{
    if len != 16 {
        return Packet::Unfit;
    }
    if bytes.len() < 16 {
        return Packet::Part;
    }
    Packet::Cancelling
}

fn startup_of(alloc: Global, len: u32, bytes: &[u8]) -> Result<Packet, NoMemory>
    requires { 8 ≤ len }
    ensures { IfOk result (λ p. p ≡ startup_of len bytes.now) }
{
    if bytes.len() < len as usize {
        return Ok(Packet::Part);
    }
    match read_params(alloc, &bytes[8..len as usize]) {
        Ok(params) => Ok(Packet::Starting(params, len as usize)),
        Err(MsgFault::NoMemory) => Err(NoMemory),
        Err(
            MsgFault::UnknownTag(_)
            | MsgFault::Short
            | MsgFault::Trailing
            | MsgFault::NotText
            | MsgFault::BadValue,
        ) => Ok(Packet::Unfit),
    }
}

/// A packet of this length whose code is there.
fn packet_by(alloc: Global, code: u32, len: u32, bytes: &[u8]) -> Result<Packet, NoMemory>
    requires { 8 ≤ len }
    ensures { IfOk result (λ p. p ≡ packet_by code len bytes.now) }
{
    match code {
        80_877_103 | 80_877_104 => Ok(request_of(len)),
        80_877_102 => Ok(cancel_of(len, bytes)),
        196_608 => startup_of(alloc, len, bytes),
        _ => Ok(Packet::Unfit),
    }
}

/// What stands at the front of these bytes.
#[tactic(auto, unfolding(crate::specs::Packets::packet_of))]
pub(crate) fn packet_of(alloc: Global, bytes: &[u8]) -> Result<Packet, NoMemory>
    ensures { IfOk result (λ p. p ≡ packet_of bytes.now) }
{
    if bytes.len() < 4 {
        return Ok(Packet::Part);
    }
    let len = word_at(bytes, 0);
    if len < 8 || len > MOST_LEN {
        return Ok(Packet::Unfit);
    }
    if bytes.len() < 8 {
        return Ok(Packet::Part);
    }
    packet_by(alloc, word_at(bytes, 4), len, bytes)
}
