//! Reading the first packets.

ghost use Rattle.std.specs.Prelude.{◌≡◌, ◌≤◌, ◌<◌, ◌+◌, []};
ghost use Rattle.startup_route.specs.Entrances.{wanted};
ghost use Rattle.session_door.specs.Entering.{Answers, Turned, cut_of, Enters};

use link_io::{ReadCut, read_exact, write_all};
use proxy_outside::{ClientKey, Sink, Source};
use startup_route::{Door, DoorFault, DoorStep, Route};
use std::alloc::Global;
use std::sync::Wait;

/// How many bytes of a packet are read at once.
const PIECE: usize = 512;

/// Why a client's first packets came to nothing.
#[derive(Clone, Copy, Debug, PartialEq, Eq)]
pub enum DoorCut {
    /// The client's source failed.
    ReadFault,
    /// The client's sink failed at the answer to a request for encryption.
    WriteFault,
    /// The client ended before it had said what it wants.
    Ended,
    /// The client was idle so often.
    Late(u64),
    NoMemory,
}

/// What a client came for.
#[derive(Drop)]
pub enum Entry {
    /// A session of this route. The client was idle so often up to here.
    Session(Route, u64),
    /// That the statement under way in the session with this key is cancelled.
    Cancel(ClientKey),
    /// Nothing that can be had.
    Refused(DoorFault),
    /// It isn't known.
    Cut(DoorCut),
}

/// Whether more is to be read.
#[derive(Drop)]
pub(crate) enum Turn {
    /// It is. The client was idle so often up to here.
    On(u64),
    Over(Entry),
}

fn cut_by(e: ReadCut) -> DoorCut
    ensures { result ≡ cut_of e }
{
    match e {
        ReadCut::Fault => DoorCut::ReadFault,
        ReadCut::Ended => DoorCut::Ended,
        ReadCut::Late(n) => DoorCut::Late(n),
    }
}

/// Answers the packets so far.
fn answer<K: Sink>(client_out: &mut K, step: DoorStep, waits: u64) -> Turn
    ensures { Answers waits (K.target client_out.old) (K.target client_out.new) step result }
{
    match step {
        DoorStep::Need => Turn::On(waits),
        DoorStep::Say => {
            if write_all(client_out, b"N") {
                Turn::On(waits)
            } else {
                Turn::Over(Entry::Cut(DoorCut::WriteFault))
            }
        }
        DoorStep::Ready(route) => Turn::Over(Entry::Session(route, waits)),
        DoorStep::Cancel(key) => Turn::Over(Entry::Cancel(key)),
        DoorStep::Refused(fault) => Turn::Over(Entry::Refused(fault)),
    }
}

/// Reads a piece of what the door wants, and answers it.
fn read_piece<S: Source, K: Sink>(
    door: &mut Door,
    client_in: &mut S,
    client_out: &mut K,
    waited: u64,
    patience: u64,
) -> Turn
    requires wants { 0 < wanted door.old }
    requires patient { waited + 1 ≤ patience }
    ensures { Turned waited patience door.old door.new
        (S.origin client_in.old) (S.origin client_in.new)
        (K.target client_out.old) (K.target client_out.new) result }
{
    let count = door.want().min(PIECE);
    let mut buf = [0u8; PIECE];
    match read_exact(client_in, &mut buf[..count], waited, patience) {
        Ok(waits) => match door.feed(&buf[..count]) {
            Ok(step) => answer(client_out, step, waits),
            Err(_) => Turn::Over(Entry::Cut(DoorCut::NoMemory)),
        },
        Err(e) => Turn::Over(Entry::Cut(cut_by(e))),
    }
}

/// Reads what the client came for, with a new door.
fn read_entry<W: Wait, S: Source, K: Sink>(
    rt: &W,
    door: &mut Door,
    client_in: &mut S,
    client_out: &mut K,
    patience: u64,
) -> Entry
    requires new { door.old ≡ [] }
    requires patient { 1 ≤ patience }
    ensures { Enters patience
        (S.origin client_in.old) (S.origin client_in.new)
        (K.target client_out.old) (K.target client_out.new) result }
{
    let mut waits = 0;
    for _ in rt.forever() {
        match read_piece(door, client_in, client_out, waits, patience) {
            Turn::On(w) => waits = w,
            Turn::Over(entry) => return entry,
        }
    }
    unreachable!()
}

/// Reads what the client came for, and answers each request for encryption by one byte. Once the client was idle
/// `patience` times, it is left.
pub fn enter<W: Wait, S: Source, K: Sink>(
    rt: &W,
    alloc: Global,
    client_in: &mut S,
    client_out: &mut K,
    patience: u64,
) -> Entry
    requires { 1 ≤ patience }
    ensures { Enters patience
        (S.origin client_in.old) (S.origin client_in.new)
        (K.target client_out.old) (K.target client_out.new) result }
{
    let mut door = Door::new(alloc);
    read_entry(rt, &mut door, client_in, client_out, patience)
}
