//! The two halves of a connection, and the bytes that were read and not used yet.

ghost use Rattle.std.specs.Prelude.{◌≡◌};
ghost use Rattle.pod_conn.specs.Coming.{Feeds, ReadsOne, end_resting};

use crate::end::PodEnd;
use pgw_frames::{ByteQueue, Frame, Next};
use proxy_outside::{Source, Took};
use std::sync::Wait;

/// How many bytes are read at once.
const PIECE: usize = 8_192;

#[derive(Drop)]
pub(crate) struct Wire<S, K> {
    pub client_in: S,
    pub client_out: K,
    pub held: ByteQueue,
}

/// The end of a client that sends no more.
fn end_of_input(held: &ByteQueue) -> PodEnd
    ensures { result ≡ end_resting held.now }
{
    if held.is_empty() {
        PodEnd::Closed
    } else {
        PodEnd::ClientCut
    }
}

/// Waits for further bytes, and holds them.
pub(crate) fn feed<W: Wait, S: Source>(
    rt: &W,
    client_in: &mut S,
    held: &mut ByteQueue,
) -> Result<(), PodEnd>
    ensures { Feeds result held.old held.new (S.origin client_in.old) (S.origin client_in.new) }
{
    let mut buf = [0u8; PIECE];
    for _ in rt.forever() {
        match client_in.read(&mut buf) {
            Took::Got(n) => {
                held.extend(&buf[..n])?;
                return Ok(());
            }
            Took::End => return Err(end_of_input(held)),
            Took::Idle => {}
            Took::Failed => return Err(PodEnd::ReadFault),
        }
    }
    unreachable!()
}

/// Reads a message.
pub(crate) fn read_frame<W: Wait, S: Source>(
    rt: &W,
    client_in: &mut S,
    held: &mut ByteQueue,
) -> Result<Frame, PodEnd>
    ensures { ReadsOne result held.old held.new (S.origin client_in.old) (S.origin client_in.new) }
{
    for _ in rt.forever() {
        match held.next_frame()? {
            Next::Frame(f) => return Ok(f),
            Next::Need => feed(rt, client_in, held)?,
            Next::BadLength(n) => return Err(PodEnd::BadFrame(n)),
        }
    }
    unreachable!()
}
