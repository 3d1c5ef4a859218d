//! The client's direction.

ghost use Rattle.std.specs.Prelude.{◌≡◌, ◌==◌, ℕ, Bool, true, false, List, [], ◌++◌, length, IfOk, OnOk, OnErr};
ghost use Rattle.pgw_frames.specs.Frames.{render};
ghost use Rattle.pgw_frames.specs.declared.frame.Frame.{Frame as Message};
ghost use Rattle.processor_core.specs.Intakes.{Fills};
ghost use Rattle.processor_core.specs.Streams.{StepOf, HasMessage, HasGoodFrame, handed_by, step_of_peek, LendsGood, HandsOn};
ghost use Rattle.processor_core.specs.Tallies.{request_tally};
ghost use Rattle.processor_core.specs.Stands.{RequestStands, RequestKeeps};

use crate::step::{Peek, Step};
use crate::stream::Stream;
use crate::tally::RequestTally;
use pgw_frames::NoMemory;
use proxy_outside::{Source, Took};
use std::alloc::Global;

/// The messages of a client, over the whole session. Contracts see what was fed, what was handed out, and
/// whether it is suspended.
#[derive(Debug, Drop)]
pub struct Request {
    stream: Stream,
    tally: RequestTally,
}

impl Request {
    /// A processor to which nothing was fed. It takes no memory.
    pub fn new(alloc: Global) -> Request
        ensures { RequestStands result [] [] false }
    {
        Request {
            stream: Stream::new(alloc),
            tally: RequestTally::new(),
        }
    }

    /// Takes further bytes, also while suspended. An `Err` changes nothing.
    pub fn feed(&mut self, piece: &[u8]) -> Result<(), NoMemory>
        ensures ok { OnOk result ((fed : List ℕ) (handed : List Message) (suspended : Bool) → RequestStands self.old fed handed suspended → RequestStands self.new (fed ++ piece.now) handed suspended) }
        ensures err { OnErr result (RequestKeeps self.old self.new) }
    {
        self.stream.feed(piece)?;
        Ok(())
    }

    /// Reads once, at most 8,192 bytes, and takes them as further bytes, also while suspended. A want of memory is
    /// answered before anything is read, and changes nothing.
    pub fn fill<S: Source>(&mut self, source: &mut S) -> Result<Took, NoMemory>
        ensures ok { IfOk result (λ t. Fills RequestStands self.old self.new t (S.origin source.old) (S.origin source.new)) }
        ensures err { OnErr result (RequestKeeps self.old self.new) }
        ensures unread { OnErr result (source.new ≡ source.old) }
    {
        let took = self.stream.fill(source)?;
        Ok(took)
    }

    /// Hands out and counts the next message. Only a message takes memory; an `Err` changes nothing.
    pub fn next(&mut self) -> Result<Step, NoMemory>
        ensures step { IfOk result (λ r. (fed : List ℕ) (handed : List Message) (suspended : Bool) → RequestStands self.old fed handed suspended → StepOf r fed handed suspended) }
        ensures state { IfOk result (λ r. (fed : List ℕ) (handed : List Message) (suspended : Bool) → RequestStands self.old fed handed suspended → RequestStands self.new fed (handed_by r handed) suspended) }
        ensures good { IfOk result HasGoodFrame }
        ensures no_memory { OnErr result ((fed : List ℕ) (handed : List Message) (suspended : Bool) → RequestStands self.old fed handed suspended → HasMessage fed handed suspended) }
        ensures err { OnErr result (RequestKeeps self.old self.new) }
    {
        let step = self.stream.next()?;
        self.tally.count_step(&step);
        Ok(step)
    }

    /// Lends the next message, which is neither handed out nor counted yet. It takes no memory.
    pub fn peek(&self) -> Peek<'_>
        ensures step { (fed : List ℕ) (handed : List Message) (suspended : Bool) → RequestStands self.now fed handed suspended → StepOf (step_of_peek result) fed handed suspended }
        ensures good { LendsGood result }
    {
        self.stream.peek()
    }

    /// Hands out and counts the message that `peek` lends, by dropping it; where it lends none, nothing
    /// changes. It takes no memory.
    pub fn advance(&mut self)
        ensures { HandsOn (RequestStands self.old) (RequestStands self.new) }
    {
        let tag = self.stream.advance();
        self.tally.count_next(tag);
    }

    /// From now on `next` and `peek` answer Stopped.
    pub fn suspend(&mut self)
        ensures { (fed : List ℕ) (handed : List Message) (suspended : Bool) → RequestStands self.old fed handed suspended → RequestStands self.new fed handed true }
    {
        self.stream.suspend();
    }

    /// From now on messages are handed out.
    pub fn resume(&mut self)
        ensures { (fed : List ℕ) (handed : List Message) (suspended : Bool) → RequestStands self.old fed handed suspended → RequestStands self.new fed handed false }
    {
        self.stream.resume();
    }

    /// Whether all that was fed was handed out.
    pub fn is_empty(&self) -> bool
        ensures { (fed : List ℕ) (handed : List Message) (suspended : Bool) → RequestStands self.now fed handed suspended → result ≡ (length fed == length (render handed)) }
    {
        self.stream.is_empty()
    }

    /// What was counted of all that was handed out.
    pub fn tally(&self) -> RequestTally
        ensures { (fed : List ℕ) (handed : List Message) (suspended : Bool) → RequestStands self.now fed handed suspended → result ≡ request_tally handed }
    {
        self.tally
    }
}
