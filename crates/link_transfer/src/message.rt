//! Reading whole messages, and not a byte more (PostgreSQL manual, "Message Formats").

ghost use Rattle.std.specs.Prelude.{◌≡◌, ◌≤◌, ◌+◌, Ok, Err, length, MatchResult};
ghost use Rattle.link_transfer.specs.Hearing.{cut_of, head_bytes, BadHead, Fills, HearsHead, SkipsAll, HearsBody, HearsOne, Drops, Breaks};

use link_io::{ReadCut, read_exact};
use pgw_frames::{Bytes, Frame};
use proxy_outside::Source;
use std::alloc::Global;
use transfer_stages::Cut;

/// How many bytes of a message are read at once where it is dropped.
const DROP: usize = 512;

/// The front of a message: its type, how many bytes its body has, and how often the source was idle since
/// reading began.
#[derive(Clone, Copy)]
pub(crate) struct Head {
    pub tag: u8,
    pub len: usize,
    pub waits: u64,
}

/// What became of a body.
#[derive(Drop)]
pub(crate) enum Body {
    Whole(Bytes, u64),
    /// There was no memory for it; it was read and dropped.
    Lost(u64),
    Cut(Cut),
}

/// What came, and how often the source was idle since reading began.
#[derive(Drop)]
pub enum Heard {
    Whole(Frame, u64),
    /// A message of this type, for whose body there was no memory; it was read whole and dropped.
    Lost(u8, u64),
    /// None. A part of one may have been read.
    Cut(Cut),
}

fn cut_by(e: ReadCut) -> Cut
    ensures { result ≡ cut_of e }
{
    match e {
        ReadCut::Fault => Cut::ReadFault,
        ReadCut::Ended => Cut::Ended,
        ReadCut::Late(n) => Cut::Late(n),
    }
}

/// Fills the buffer.
fn fill<R: Source>(rx: &mut R, buf: &mut [u8], waited: u64, patience: u64) -> Result<u64, Cut>
    requires { waited + 1 ≤ patience }
    ensures { Fills waited patience buf.new (R.origin rx.old) (R.origin rx.new) result }
{
    match read_exact(rx, buf, waited, patience) {
        Ok(waits) => Ok(waits),
        Err(e) => Err(cut_by(e)),
    }
}

/// The type of a message, and how many bytes its body has; or the length field, where it isn't 4 to 16,777,220.
fn parse_head(head: &[u8; 5]) -> Result<(u8, usize), u32>
    ensures { MatchResult result (λ p. (p.1 ≤ 16777216) × (head.now ≡ head_bytes p.0 p.1)) (λ n. BadHead head.now n) }
{
    let n = u32::from_be_bytes([head[1], head[2], head[3], head[4]]);
    if n < 4 || n > 16_777_220 {
        return Err(n);
    }
    Ok((head[0], n as usize - 4))
}

/// Reads the front of a message.
pub(crate) fn read_head<R: Source>(rx: &mut R, waited: u64, patience: u64) -> Result<Head, Cut>
    requires { waited + 1 ≤ patience }
    ensures { HearsHead waited patience (R.origin rx.old) (R.origin rx.new) result }
{
    let mut head = [0u8; 5];
    match fill(rx, &mut head, waited, patience) {
        Ok(waits) => match parse_head(&head) {
            Ok((tag, len)) => Ok(Head { tag, len, waits }),
            Err(n) => Err(Cut::BadLength(n)),
        },
        Err(c) => Err(c),
    }
}

/// Reads so many bytes into a fixed array, and drops them.
fn skip<R: Source>(rx: &mut R, len: usize, waited: u64, patience: u64) -> Result<u64, Cut>
    requires { waited + 1 ≤ patience }
    ensures { SkipsAll waited patience len (R.origin rx.old) (R.origin rx.new) result }
{
    let mut buf = [0u8; DROP];
    let mut left = len;
    let mut waits = waited;
    while left > 0 {
        let count = left.min(DROP);
        match fill(rx, &mut buf[..count], waits, patience) {
            Ok(w) => waits = w,
            Err(c) => return Err(c),
        }
        left -= count;
    }
    Ok(waits)
}

/// Reads a body, and drops it where there is no memory for it.
fn read_body<R: Source>(alloc: Global, rx: &mut R, len: usize, waited: u64, patience: u64) -> Body
    requires { waited + 1 ≤ patience }
    ensures { HearsBody waited patience len (R.origin rx.old) (R.origin rx.new) result }
{
    match Vec::from_elem(alloc, 0u8, len) {
        Ok(v) => {
            let mut v = v;
            match fill(rx, v.as_mut_slice(), waited, patience) {
                Ok(waits) => Body::Whole(Bytes::from_vec(v), waits),
                Err(c) => Body::Cut(c),
            }
        }
        Err(_) => match skip(rx, len, waited, patience) {
            Ok(waits) => Body::Lost(waits),
            Err(c) => Body::Cut(c),
        },
    }
}

/// Reads a message, and no byte more. The source was idle `waited` times since reading from it began; once it is
/// so `patience` times over all, reading is given up.
pub fn read_message<R: Source>(alloc: Global, rx: &mut R, waited: u64, patience: u64) -> Heard
    requires { waited + 1 ≤ patience }
    ensures { HearsOne waited patience (R.origin rx.old) (R.origin rx.new) result }
{
    match read_head(rx, waited, patience) {
        Ok(h) => match read_body(alloc, rx, h.len, h.waits, patience) {
            Body::Whole(body, waits) => Heard::Whole(Frame { tag: h.tag, body }, waits),
            Body::Lost(waits) => Heard::Lost(h.tag, waits),
            Body::Cut(c) => Heard::Cut(c),
        },
        Err(c) => Heard::Cut(c),
    }
}

/// Reads a message into a fixed array, and drops it. Its type is the answer, and how often the source was idle.
pub(crate) fn skip_message<R: Source>(
    rx: &mut R,
    waited: u64,
    patience: u64,
) -> Result<(u8, u64), Cut>
    requires { waited + 1 ≤ patience }
    ensures { MatchResult result (λ p. Drops p.0 waited p.1 patience (R.origin rx.old) (R.origin rx.new)) (λ c. Breaks c waited patience (R.origin rx.old) (R.origin rx.new)) }
{
    match read_head(rx, waited, patience) {
        Ok(h) => match skip(rx, h.len, h.waits, patience) {
            Ok(waits) => Ok((h.tag, waits)),
            Err(c) => Err(c),
        },
        Err(c) => Err(c),
    }
}
