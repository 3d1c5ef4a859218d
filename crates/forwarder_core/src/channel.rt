//! A stream of bytes, with the cutter at its end.

ghost use Rattle.std.specs.Prelude.{◌≡◌, ◌+◌, ℕ, List, [], ◌++◌, length, min, OnOk, IfOk, IfSome};
ghost use Rattle.pgw_frames.specs.Frames.{frame_bytes, IsGood};
ghost use Rattle.pgw_frames.specs.Cutting.{HasGoodFrame};
ghost use Rattle.pgw_frames.specs.declared.frame.Frame.{Frame};
ghost use Rattle.forwarder_core.specs.Carries.{Carries, NextOf, whole_of};

use pgw_frames::{ByteQueue, Cutter, Frame, Next, NoMemory};
use std::alloc::Global;

/// A stream of bytes: those that are on their way, and those that have come.
#[derive(Debug, Drop)]
pub(crate) struct Channel {
    waiting: ByteQueue,
    cutter: Cutter,
}

/// The message that stands whole at the front, if any.
pub(crate) fn whole(next: Next) -> Option<Frame>
    ensures value { result ≡ whole_of next }
    ensures good { HasGoodFrame next → IfSome result IsGood }
{
    match next {
        Next::Frame(f) => Some(f),
        Next::Need => None,
        Next::BadLength(_) => None,
    }
}

impl Channel {
    pub fn new(alloc: Global) -> Channel
        ensures { Carries result [] 0 [] }
    {
        Channel {
            waiting: ByteQueue::new(alloc),
            cutter: Cutter::new(alloc),
        }
    }

    /// The stream goes on with these bytes.
    pub fn give(&mut self, piece: &[u8]) -> Result<(), NoMemory>
        ensures { OnOk result ((stream : List ℕ) (at : ℕ) (handed : List Frame) → Carries self.old stream at handed → Carries self.new (stream ++ piece.now) at handed) }
    {
        self.waiting.extend(piece)?;
        Ok(())
    }

    /// The stream goes on with a message.
    pub fn give_frame(&mut self, f: &Frame) -> Result<(), NoMemory>
        requires { IsGood f.now }
        ensures { OnOk result ((stream : List ℕ) (at : ℕ) (handed : List Frame) → Carries self.old stream at handed → Carries self.new (stream ++ frame_bytes f.now) at handed) }
    {
        self.waiting.write_frame(f)?;
        Ok(())
    }

    /// Lets up to so many further bytes come, and says how many came.
    pub fn advance(&mut self, count: usize) -> Result<usize, NoMemory>
        ensures come { IfOk result (λ n. (stream : List ℕ) (at : ℕ) (handed : List Frame) → Carries self.old stream at handed → Carries self.new stream (at + n) handed) }
        ensures count { IfOk result (λ n. (stream : List ℕ) (at : ℕ) (handed : List Frame) → Carries self.old stream at handed → min (length stream) (at + count) ≡ at + n) }
    {
        let come = count.min(self.waiting.len());
        self.cutter.feed(self.waiting.as_slice().split_at(come).0)?;
        self.waiting.drop_front(come);
        Ok(come)
    }

    /// Hands out the next message of what has come.
    pub fn next(&mut self) -> Result<Option<Frame>, NoMemory>
        ensures next { IfOk result (λ r. (stream : List ℕ) (at : ℕ) (handed : List Frame) → Carries self.old stream at handed → NextOf r self.new stream at handed) }
        ensures good { IfOk result (λ r. IfSome r IsGood) }
    {
        let next = self.cutter.next()?;
        Ok(whole(next))
    }
}
