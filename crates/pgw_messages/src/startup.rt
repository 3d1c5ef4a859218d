//! The startup packet. PostgreSQL manual, "Message Formats", StartupMessage.

ghost use Rattle.std.specs.Prelude.{◌≡◌, ◌≤◌, ◌+◌, [], ◌∷◌, ◌++◌, length, drop, Ok, OnOk, IfOk};
ghost use Rattle.std.specs.Int.{w32, to_be_bytes};
ghost use Rattle.std.specs.List.{flat_map, AllByRecursion};
ghost use Rattle.pgw_messages.specs.Params.{HasDistinctNames};
ghost use Rattle.pgw_messages.specs.Reading.{Gives, Reads};
ghost use Rattle.pgw_messages.specs.Startup.{Fits, CanWriteParam, IsParam, startup_packet, startup_body, pair_bytes, pairs_at, params_of};

use crate::fault::MsgFault;
use crate::gathering::Gathering;
use crate::params::Params;
use crate::reader::Reader;
use crate::writer::Writer;
use pgw_frames::{Bytes, NoMemory};
use std::alloc::Global;

/// Version 3.0 of the protocol.
const VERSION: u32 = 196_608;

/// How many bytes there is room for at first: most packets are shorter.
const FIRST_ROOM: usize = 256;

/// Reads pairs up to a zero byte.
fn read_pairs(r: &mut Reader<'_>) -> Result<Params, MsgFault>
    ensures { Reads result r.new (pairs_at r.old) }
{
    let mut params = Gathering::new(r.allocator());
    while !r.ends()? {
        let name = r.str()?;
        let value = r.str()?;
        params = params.with(name, value)?;
    }
    Ok(params.into_params())
}

/// Reads the parameters of a startup packet from the bytes behind its version: zero-ended names and
/// values, and a zero byte. A name that comes again keeps its first place and takes the later value.
/// The time grows little faster than the bytes, whatever the names are.
/// `Short`, `NotText` and `Trailing` say what stands there first in place of that.
#[tactic(auto, unfolding(crate::specs::Startup::params_of))]
pub fn read_params(alloc: Global, body: &[u8]) -> Result<Params, MsgFault>
    ensures { Gives result (params_of body.now) }
{
    let mut r = Reader::new(alloc, body);
    let params = read_pairs(&mut r)?;
    r.finish()?;
    Ok(params)
}

fn write_body(alloc: Global, p: &Params) -> Result<Bytes, NoMemory>
    ensures bytes { IfOk result (λ b. b ≡ startup_body p.now) }
    ensures good { OnOk result (AllByRecursion (λ q. CanWriteParam q → IsParam q) p.now) }
    ensures distinct { OnOk result (HasDistinctNames p.now) }
{
    let mut body = Writer::with_room(alloc, FIRST_ROOM)?;
    body.u32(VERSION)?;
    p.write(&mut body)?;
    body.u8(0)?;
    Ok(body.into_bytes())
}

/// The body of a packet with one more pair, which is lent.
#[tactic(auto, using(crate::proofs::Packets::body_with))]
fn write_body_with(alloc: Global, p: &Params, name: &str, value: &str) -> Result<Bytes, NoMemory>
    ensures { IfOk result (λ b. b ≡ startup_body (p.now ++ record { name = name.now; value = value.now } ∷ [])) }
{
    let mut body = Writer::with_room(alloc, FIRST_ROOM)?;
    body.u32(VERSION)?;
    p.write(&mut body)?;
    body.pair(name, value)?;
    body.u8(0)?;
    Ok(body.into_bytes())
}

/// A packet's body behind its length.
fn behind_length(alloc: Global, body: &[u8]) -> Result<Bytes, NoMemory>
    requires { length body.now ≤ 11899996 }
    ensures { IfOk result (λ b. b ≡ to_be_bytes w32 (length body.now + 4) ++ body.now) }
{
    let mut packet = Writer::with_room(alloc, body.len() + 4)?;
    packet.u32(body.len() as u32 + 4)?;
    packet.bytes(body)?;
    Ok(packet.into_bytes())
}

/// The startup packet of these parameters, at most 11,900,000 bytes. Behind its length and version it
/// is read as these parameters, where no name is empty and no text has a zero byte.
#[tactic(auto, unfolding(crate::specs::Startup::startup_packet))]
pub fn startup_bytes(alloc: Global, p: &Params) -> Result<Bytes, NoMemory>
    requires { Fits p.now }
    ensures value { IfOk result (λ b. b ≡ startup_packet p.now) }
    ensures again { AllByRecursion CanWriteParam p.now → IfOk result (λ b. params_of (drop 8 b) ≡ Ok p.now) }
{
    let body = write_body(alloc, p)?;
    let packet = behind_length(alloc, body.as_slice())?;
    Ok(packet)
}

/// The startup packet of these parameters with one more behind them, at most 11,900,000 bytes. The
/// parameters are copied once, into the packet.
#[tactic(auto, unfolding(crate::specs::Startup::startup_packet))]
pub fn startup_bytes_with(
    alloc: Global,
    p: &Params,
    name: &str,
    value: &str,
) -> Result<Bytes, NoMemory>
    requires { Fits (p.now ++ record { name = name.now; value = value.now } ∷ []) }
    ensures { IfOk result (λ b. b ≡ startup_packet (p.now ++ record { name = name.now; value = value.now } ∷ [])) }
{
    let body = write_body_with(alloc, p, name, value)?;
    let packet = behind_length(alloc, body.as_slice())?;
    Ok(packet)
}
