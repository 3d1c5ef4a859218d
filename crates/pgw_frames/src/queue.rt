//! Bytes that come in at one end and go at the other.

ghost use Rattle.std.specs.Prelude.{◌≡◌, ◌==◌, ◌≤◌, [], ◌++◌, length, take, drop, IfOk, OnOk, OnErr};
ghost use Rattle.pgw_frames.specs.Frames.{front, frame_bytes};
ghost use Rattle.pgw_frames.specs.Cutting.{Answers, HasGoodFrame, HasFrame};

use crate::bytes::Bytes;
use crate::cutter::{Next, next_of};
use crate::frame::{Frame, MOST_BODY, write_frame};
use crate::memory::NoMemory;
use std::alloc::Global;
use std::marker::Model;

/// A queue of bytes. Contracts see those that are in it. Over its life each byte is moved a bounded
/// number of times.
#[derive(Debug, Drop)]
pub struct ByteQueue {
    bytes: Bytes,
    start: usize,
}

impl Model for ByteQueue {
    ghost use Rattle.std.specs.Prelude.{List, ℕ, drop, ◌≤◌, length};

    ghost Value = { List ℕ };

    ghost view = { λ q. drop q.start q.bytes };

    ghost invariant = { λ q. q.start ≤ length q.bytes };
}

impl ByteQueue {
    /// The empty queue. It takes no memory.
    pub fn new(alloc: Global) -> ByteQueue
        ensures { result ≡ [] }
    {
        ByteQueue {
            bytes: Bytes::new(alloc),
            start: 0,
        }
    }

    /// Gives up what was dropped, once it is more than half of what is kept.
    fn shrink(&mut self)
        ensures { self.new ≡ self.old }
    {
        if self.start > self.bytes.len() / 2 {
            self.bytes.drop_front(self.start);
            self.start = 0;
        }
    }

    /// Adds bytes at the end. An `Err` changes nothing.
    pub fn extend(&mut self, piece: &[u8]) -> Result<(), NoMemory>
        ensures ok { OnOk result (self.new ≡ self.old ++ piece.now) }
        ensures err { OnErr result (self.new ≡ self.old) }
    {
        self.shrink();
        self.bytes.extend(piece)?;
        Ok(())
    }

    /// Adds a frame at the end. An `Err` changes nothing.
    pub fn write_frame(&mut self, f: &Frame) -> Result<(), NoMemory>
        requires { length f.now.body ≤ MOST_BODY }
        ensures ok { OnOk result (self.new ≡ self.old ++ frame_bytes f.now) }
        ensures err { OnErr result (self.new ≡ self.old) }
    {
        self.shrink();
        write_frame(f, &mut self.bytes)?;
        Ok(())
    }

    /// Takes the first bytes off. It takes no memory.
    pub fn drop_front(&mut self, count: usize)
        requires { count ≤ length self.old }
        ensures { self.new ≡ drop count self.old }
    {
        let left = self.len() - count;
        self.start = self.bytes.len() - left;
    }

    /// Keeps the first bytes alone. It takes no memory.
    pub fn truncate(&mut self, count: usize)
        ensures { self.new ≡ take count self.old }
    {
        if count < self.len() {
            let gone = self.len() - count;
            self.bytes.truncate(self.bytes.len() - gone);
        }
    }

    /// Takes off the frame at the front, where a whole one stands there. Only a frame takes memory.
    pub fn next_frame(&mut self) -> Result<Next, NoMemory>
        ensures ok { IfOk result (λ r. Answers r self.old self.new) }
        ensures good { IfOk result HasGoodFrame }
        ensures no_memory { OnErr result (HasFrame (front self.old)) }
        ensures err { OnErr result (self.new ≡ self.old) }
    {
        let (next, count) = next_of(self.allocator(), self.as_slice())?;
        self.drop_front(count);
        Ok(next)
    }

    pub fn len(&self) -> usize
        ensures { result ≡ length self.now }
    {
        self.bytes.len() - self.start
    }

    pub fn is_empty(&self) -> bool
        ensures { result ≡ (length self.now == 0) }
    {
        self.len() == 0
    }

    pub fn as_slice(&self) -> &[u8]
        ensures { result.now ≡ self.now }
    {
        self.bytes.as_slice().split_at(self.start).1
    }

    /// The bytes that are in it, in the memory that holds them.
    pub(crate) fn into_bytes(self) -> Bytes
        ensures { result ≡ self }
    {
        let mut bytes = self.bytes;
        bytes.drop_front(self.start);
        bytes
    }

    pub(crate) fn allocator(&self) -> Global {
        self.bytes.allocator()
    }
}
