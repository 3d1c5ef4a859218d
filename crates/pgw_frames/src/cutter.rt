//! Cutting a stream of bytes into frames.

ghost use Rattle.std.specs.Prelude.{◌≡◌, ◌≤◌, [], ◌∷◌, ◌++◌, length, drop, OnOk, OnErr, IfOk};
ghost use Rattle.pgw_frames.specs.Frames.{front};
ghost use Rattle.pgw_frames.specs.Cutting.{Answers, Advances, HasGoodFrame, HasFrame, Shows};

use crate::bytes::Bytes;
use crate::frame::Frame;
use crate::head::{Head, head_of};
use crate::memory::NoMemory;
use crate::queue::ByteQueue;
use std::alloc::Global;
use std::marker::Model;

/// What stands at the front of what is held.
#[derive(Debug, Drop)]
pub enum Next {
    /// A whole frame, which was taken off.
    Frame(Frame),
    /// No whole frame yet: some more bytes would make one.
    Need,
    /// A length outside 4 to 16,777,220, which begins no frame, now and for good.
    BadLength(u32),
}

/// What stands at the front of what is held, lent.
#[derive(Clone, Copy, Debug)]
pub enum Ahead<'a> {
    /// A whole frame, as it stands on the wire: type byte, length and body.
    Frame(&'a [u8]),
    /// No whole frame yet: some more bytes would make one.
    Need,
    /// A length outside 4 to 16,777,220, which begins no frame, now and for good.
    BadLength(u32),
}

/// Cuts a stream into frames, in whatever pieces it comes. Contracts see the bytes that it holds.
#[derive(Debug, Drop)]
pub struct Cutter {
    held: ByteQueue,
}

impl Model for Cutter {
    ghost use Rattle.std.specs.Prelude.{List, ℕ};

    ghost Value = { List ℕ };

    ghost view = { λ c. c.held };
}

/// What stands at the front of these bytes, as a copy, and how many bytes it takes. Only a frame takes memory.
pub fn next_of(alloc: Global, bytes: &[u8]) -> Result<(Next, usize), NoMemory>
    ensures answer { IfOk result (λ r. Answers r.0 bytes.now (drop r.1 bytes.now)) }
    ensures good { IfOk result (λ r. HasGoodFrame r.0) }
    ensures count { IfOk result (λ r. r.1 ≤ length bytes.now) }
    ensures no_memory { OnErr result (HasFrame (front bytes.now)) }
{
    match head_of(bytes) {
        Head::Whole(count) => {
            let body = Bytes::of(alloc, &bytes[5..count])?;
            let tag = bytes[0];
            Ok((Next::Frame(Frame { tag, body }), count))
        }
        Head::Need => Ok((Next::Need, 0)),
        Head::BadLength(length) => Ok((Next::BadLength(length), 0)),
    }
}

/// What stands at the front of these bytes, lent. It takes no memory.
pub fn ahead_of(bytes: &[u8]) -> Ahead<'_>
    ensures { Shows result bytes.now }
{
    match head_of(bytes) {
        Head::Whole(count) => Ahead::Frame(&bytes[..count]),
        Head::Need => Ahead::Need,
        Head::BadLength(length) => Ahead::BadLength(length),
    }
}

impl Cutter {
    /// A cutter that holds nothing.
    pub fn new(alloc: Global) -> Cutter
        ensures { result ≡ [] }
    {
        Cutter {
            held: ByteQueue::new(alloc),
        }
    }

    /// Appends to what is held. An `Err` changes nothing.
    pub fn feed(&mut self, piece: &[u8]) -> Result<(), NoMemory>
        ensures ok { OnOk result (self.new ≡ self.old ++ piece.now) }
        ensures err { OnErr result (self.new ≡ self.old) }
    {
        self.held.extend(piece)?;
        Ok(())
    }

    /// Takes off the frame at the front, where a whole one stands there. Only a frame takes memory.
    pub fn next(&mut self) -> Result<Next, NoMemory>
        ensures ok { IfOk result (λ r. Answers r self.old self.new) }
        ensures good { IfOk result HasGoodFrame }
        ensures no_memory { OnErr result (HasFrame (front self.old)) }
        ensures err { OnErr result (self.new ≡ self.old) }
    {
        let next = self.held.next_frame()?;
        Ok(next)
    }

    /// Lends the frame at the front, where a whole one stands there. It takes no memory.
    pub fn ahead(&self) -> Ahead<'_>
        ensures { Shows result self.now }
    {
        ahead_of(self.held.as_slice())
    }

    /// Drops the frame at the front, where a whole one stands there, and says its type. It takes no memory.
    pub fn advance(&mut self) -> Option<u8>
        ensures { Advances result self.old self.new }
    {
        let bytes = self.held.as_slice();
        match head_of(bytes) {
            Head::Whole(count) => {
                let tag = bytes[0];
                self.held.drop_front(count);
                Some(tag)
            }
            Head::Need | Head::BadLength(_) => None,
        }
    }

    /// Gives up what is held. It takes no memory.
    pub fn into_bytes(self) -> Bytes
        ensures { result ≡ self }
    {
        self.held.into_bytes()
    }

    /// How many bytes are held.
    pub fn held(&self) -> usize
        ensures { result ≡ length self.now }
    {
        self.held.len()
    }
}
