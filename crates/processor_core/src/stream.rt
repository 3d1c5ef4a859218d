//! A stream of bytes that is cut into messages, and may be suspended.

ghost use Rattle.std.specs.Prelude.{◌≡◌, ◌==◌, ℕ, Bool, true, false, List, [], ◌++◌, length, IfOk, OnOk, OnErr};
ghost use Rattle.pgw_frames.specs.Frames.{render};
ghost use Rattle.pgw_frames.specs.declared.frame.Frame.{Frame as Message};
ghost use Rattle.processor_core.specs.Intakes.{Fills};
ghost use Rattle.processor_core.specs.Streams.{StreamStands, StreamKeeps, StepOf, HasMessage, HasGoodFrame, handed_by, step_of_peek, LendsGood, HandsOn, TellsTag};

use crate::intake::Intake;
use crate::step::{Peek, Step, step_of};
use pgw_frames::{Ahead, Cutter, NoMemory};
use proxy_outside::{Source, Took};
use std::alloc::Global;

/// A stream, and whether it is suspended.
#[derive(Debug, Drop)]
pub(crate) struct Stream {
    cutter: Intake,
    suspended: bool,
}

impl Stream {
    /// A stream of which nothing came.
    pub fn new(alloc: Global) -> Stream
        ensures { StreamStands result [] [] false }
    {
        Stream {
            cutter: Intake::new(alloc),
            suspended: false,
        }
    }

    /// A stream of which all that came is still held.
    pub fn behind(cutter: Cutter) -> Stream
        ensures { StreamStands result cutter [] false }
    {
        Stream {
            cutter: Intake::behind(cutter),
            suspended: false,
        }
    }

    /// The stream goes on with these bytes. An `Err` changes nothing.
    pub fn feed(&mut self, piece: &[u8]) -> Result<(), NoMemory>
        ensures ok { OnOk result ((fed : List ℕ) (handed : List Message) (suspended : Bool) → StreamStands self.old fed handed suspended → StreamStands self.new (fed ++ piece.now) handed suspended) }
        ensures err { OnErr result (StreamKeeps self.old self.new) }
    {
        self.cutter.feed(piece)?;
        Ok(())
    }

    /// The stream goes on with what a read gives. A want of memory is answered before anything is read.
    pub fn fill<S: Source>(&mut self, source: &mut S) -> Result<Took, NoMemory>
        ensures ok { IfOk result (λ t. Fills StreamStands self.old self.new t (S.origin source.old) (S.origin source.new)) }
        ensures err { OnErr result (StreamKeeps self.old self.new) }
        ensures unread { OnErr result (source.new ≡ source.old) }
    {
        let took = self.cutter.read(source)?;
        Ok(took)
    }

    /// Hands out what is next. An `Err` changes nothing.
    pub fn next(&mut self) -> Result<Step, NoMemory>
        ensures step { IfOk result (λ r. (fed : List ℕ) (handed : List Message) (suspended : Bool) → StreamStands self.old fed handed suspended → StepOf r fed handed suspended) }
        ensures state { IfOk result (λ r. (fed : List ℕ) (handed : List Message) (suspended : Bool) → StreamStands self.old fed handed suspended → StreamStands self.new fed (handed_by r handed) suspended) }
        ensures good { IfOk result HasGoodFrame }
        ensures no_memory { OnErr result ((fed : List ℕ) (handed : List Message) (suspended : Bool) → StreamStands self.old fed handed suspended → HasMessage fed handed suspended) }
        ensures err { OnErr result (StreamKeeps self.old self.new) }
    {
        if self.suspended {
            return Ok(Step::Stopped);
        }
        let next = self.cutter.next()?;
        Ok(step_of(next))
    }

    /// Lends what is next.
    pub fn peek(&self) -> Peek<'_>
        ensures step { (fed : List ℕ) (handed : List Message) (suspended : Bool) → StreamStands self.now fed handed suspended → StepOf (step_of_peek result) fed handed suspended }
        ensures good { LendsGood result }
    {
        if self.suspended {
            return Peek::Stopped;
        }
        match self.cutter.ahead() {
            Ahead::Frame(bytes) => Peek::Frame(bytes),
            Ahead::Need => Peek::Need,
            Ahead::BadLength(n) => Peek::Bad(n),
        }
    }

    /// Hands out what is next by dropping it, and says its type.
    pub fn advance(&mut self) -> Option<u8>
        ensures state { HandsOn (StreamStands self.old) (StreamStands self.new) }
        ensures tag { TellsTag (StreamStands self.old) result }
    {
        if self.suspended {
            return None;
        }
        self.cutter.advance()
    }

    /// From now on nothing is handed out.
    pub fn suspend(&mut self)
        ensures { (fed : List ℕ) (handed : List Message) (suspended : Bool) → StreamStands self.old fed handed suspended → StreamStands self.new fed handed true }
    {
        self.suspended = true;
    }

    /// From now on messages are handed out.
    pub fn resume(&mut self)
        ensures { (fed : List ℕ) (handed : List Message) (suspended : Bool) → StreamStands self.old fed handed suspended → StreamStands self.new fed handed false }
    {
        self.suspended = false;
    }

    /// Whether all that was fed was handed out.
    pub fn is_empty(&self) -> bool
        ensures { (fed : List ℕ) (handed : List Message) (suspended : Bool) → StreamStands self.now fed handed suspended → result ≡ (length fed == length (render handed)) }
    {
        self.cutter.held() == 0
    }
}
