//! The pod's direction, behind the greeting.

ghost use Rattle.std.specs.Prelude.{◌≡◌, ℕ, Bool, true, false, List, [], ◌++◌, IfOk, OnOk, OnErr};
ghost use Rattle.pgw_frames.specs.declared.frame.Frame.{Frame as Message};
ghost use Rattle.processor_core.specs.Intakes.{Fills};
ghost use Rattle.processor_core.specs.Streams.{StepOf, HasMessage, HasGoodFrame, handed_by, step_of_peek, LendsGood, HandsOn};
ghost use Rattle.processor_core.specs.Tallies.{response_tally};
ghost use Rattle.processor_core.specs.Stands.{ResponseStands, ResponseKeeps};

use crate::step::{Peek, Step};
use crate::stream::Stream;
use crate::tally::{ReplyCounts, ResponseTally};
use pgw_frames::{Cutter, NoMemory};
use proxy_outside::{Source, Took};
use std::alloc::Global;

/// The messages of a pod behind its greeting, over the whole session. Contracts see what was fed, what was
/// handed out, and whether it is suspended.
#[derive(Debug, Drop)]
pub struct Response {
    stream: Stream,
    replies: ReplyCounts,
}

impl Response {
    /// A processor to which nothing was fed. It takes no memory.
    pub fn new(alloc: Global) -> Response
        ensures { ResponseStands result [] [] false }
    {
        Response {
            stream: Stream::new(alloc),
            replies: ReplyCounts::new(),
        }
    }

    /// A processor to which was fed what a cutter holds, once it has cut off the greeting. It takes no
    /// memory.
    pub fn behind(greeting: Cutter) -> Response
        ensures { ResponseStands result greeting [] false }
    {
        Response {
            stream: Stream::behind(greeting),
            replies: ReplyCounts::new(),
        }
    }

    /// Takes further bytes, also while suspended. An `Err` changes nothing.
    pub fn feed(&mut self, piece: &[u8]) -> Result<(), NoMemory>
        ensures ok { OnOk result ((fed : List ℕ) (handed : List Message) (suspended : Bool) → ResponseStands self.old fed handed suspended → ResponseStands self.new (fed ++ piece.now) handed suspended) }
        ensures err { OnErr result (ResponseKeeps self.old self.new) }
    {
        self.stream.feed(piece)?;
        Ok(())
    }

    /// Reads once, at most 8,192 bytes, and takes them as further bytes, also while suspended. A want of memory is
    /// answered before anything is read, and changes nothing.
    pub fn fill<S: Source>(&mut self, source: &mut S) -> Result<Took, NoMemory>
        ensures ok { IfOk result (λ t. Fills ResponseStands self.old self.new t (S.origin source.old) (S.origin source.new)) }
        ensures err { OnErr result (ResponseKeeps self.old self.new) }
        ensures unread { OnErr result (source.new ≡ source.old) }
    {
        let took = self.stream.fill(source)?;
        Ok(took)
    }

    /// Hands out and counts the next message. Only a message takes memory; an `Err` changes nothing.
    pub fn next(&mut self) -> Result<Step, NoMemory>
        ensures step { IfOk result (λ r. (fed : List ℕ) (handed : List Message) (suspended : Bool) → ResponseStands self.old fed handed suspended → StepOf r fed handed suspended) }
        ensures state { IfOk result (λ r. (fed : List ℕ) (handed : List Message) (suspended : Bool) → ResponseStands self.old fed handed suspended → ResponseStands self.new fed (handed_by r handed) suspended) }
        ensures good { IfOk result HasGoodFrame }
        ensures no_memory { OnErr result ((fed : List ℕ) (handed : List Message) (suspended : Bool) → ResponseStands self.old fed handed suspended → HasMessage fed handed suspended) }
        ensures err { OnErr result (ResponseKeeps self.old self.new) }
    {
        let step = self.stream.next()?;
        self.replies.count_step(&step);
        Ok(step)
    }

    /// Lends the next message, which is neither handed out nor counted yet. It takes no memory.
    pub fn peek(&self) -> Peek<'_>
        ensures step { (fed : List ℕ) (handed : List Message) (suspended : Bool) → ResponseStands self.now fed handed suspended → StepOf (step_of_peek result) fed handed suspended }
        ensures good { LendsGood result }
    {
        self.stream.peek()
    }

    /// Hands out and counts the message that `peek` lends, by dropping it; where it lends none, nothing
    /// changes. It takes no memory.
    pub fn advance(&mut self)
        ensures { HandsOn (ResponseStands self.old) (ResponseStands self.new) }
    {
        let tag = self.stream.advance();
        self.replies.count_next(tag);
    }

    /// From now on `next` and `peek` answer Stopped.
    pub fn suspend(&mut self)
        ensures { (fed : List ℕ) (handed : List Message) (suspended : Bool) → ResponseStands self.old fed handed suspended → ResponseStands self.new fed handed true }
    {
        self.stream.suspend();
    }

    /// From now on messages are handed out.
    pub fn resume(&mut self)
        ensures { (fed : List ℕ) (handed : List Message) (suspended : Bool) → ResponseStands self.old fed handed suspended → ResponseStands self.new fed handed false }
    {
        self.stream.resume();
    }

    /// What was counted of all that was handed out.
    pub fn tally(&self) -> ResponseTally
        ensures { (fed : List ℕ) (handed : List Message) (suspended : Bool) → ResponseStands self.now fed handed suspended → result ≡ response_tally fed handed }
    {
        ResponseTally {
            zs: self.replies.zs,
            last: self.replies.last,
            empty: self.stream.is_empty(),
        }
    }
}
