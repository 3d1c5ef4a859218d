//! The messages of a session's pods, on their way to the client.

ghost use Rattle.std.specs.Prelude.{◌≡◌, ◌==◌, ◌++◌, ◌∷◌, [], true, false, None, List, ℕ, Bool, length, OnOk, IfOk, IfSome};
ghost use Rattle.pgw_frames.specs.Frames.{IsGood};
ghost use Rattle.pgw_frames.specs.declared.frame.Frame.{Frame as Message};
ghost use Rattle.session_model.specs.Heard.{has_ready};
ghost use Rattle.processor_core.specs.Streams.{HasGoodFrame};
ghost use Rattle.processor_core.specs.Stands.{ResponseStands};
ghost use Rattle.forwarder_core.specs.RepliesStand.{RepliesStand, ReplyOf, TallyOf, message_of};

use crate::channel::whole;
use pgw_frames::{Cutter, Frame, NoMemory};
use pgw_messages::tags;
use processor_core::{Response, ResponseTally, Step};
use std::alloc::Global;

/// What was read of the session's pods. The greeting is cut off first, and what stands behind it goes
/// through the response processor.
#[derive(Debug, Drop)]
pub(crate) struct Replies {
    /// None once the greeting has ended.
    greeting: Option<Cutter>,
    response: Response,
}

/// The message of a step, if there is one.
fn message(step: Step) -> Option<Frame>
    ensures value { result ≡ message_of step }
    ensures good { HasGoodFrame step → IfSome result IsGood }
{
    match step {
        Step::Frame(f) => Some(f),
        Step::Need => None,
        Step::Bad(_) => None,
        Step::Stopped => None,
    }
}

impl Replies {
    pub fn new(alloc: Global) -> Replies
        ensures { RepliesStand result [] [] false }
    {
        Replies {
            greeting: Some(Cutter::new(alloc)),
            response: Response::new(alloc),
        }
    }

    /// Takes further bytes.
    pub fn feed(&mut self, piece: &[u8]) -> Result<(), NoMemory>
        ensures { OnOk result ((held : List ℕ) (passed : List Message) (suspended : Bool) → RepliesStand self.old held passed suspended → RepliesStand self.new (held ++ piece.now) passed suspended) }
    {
        match &mut self.greeting {
            Some(cutter) => {
                cutter.feed(piece)?;
                Ok(())
            }
            None => {
                self.response.feed(piece)?;
                Ok(())
            }
        }
    }

    /// Whether the greeting has ended.
    pub fn is_greeted(&self) -> bool
        ensures { (held : List ℕ) (passed : List Message) (suspended : Bool) → RepliesStand self.now held passed suspended → result ≡ has_ready passed }
    {
        self.greeting.is_none()
    }

    /// Keeps what is held behind a message of the greeting, which ends with its ReadyForQuery.
    fn keep(&mut self, cutter: Cutter, tag: u8)
        requires { self.old.greeting ≡ None }
        ensures { (f : Message) (passed : List Message) → f.tag ≡ tag → has_ready passed ≡ false → ResponseStands self.old.response [] [] false → RepliesStand self.new cutter (passed ++ f ∷ []) false }
    {
        if tag == tags::READY_FOR_QUERY {
            self.response = Response::behind(cutter);
        } else {
            self.greeting = Some(cutter);
        }
    }

    /// Hands out the next message of the greeting.
    fn greet(&mut self, mut cutter: Cutter) -> Result<Option<Frame>, NoMemory>
        requires { self.old.greeting ≡ None }
        ensures next { IfOk result (λ r. (passed : List Message) → has_ready passed ≡ false → ResponseStands self.old.response [] [] false → ReplyOf r self.new cutter passed) }
        ensures good { IfOk result (λ r. IfSome r IsGood) }
    {
        match whole(cutter.next()?) {
            Some(f) => {
                self.keep(cutter, f.tag);
                Ok(Some(f))
            }
            None => {
                self.greeting = Some(cutter);
                Ok(None)
            }
        }
    }

    /// Hands out the next message behind the greeting.
    fn respond(&mut self) -> Result<Option<Frame>, NoMemory>
        requires { self.old.greeting ≡ None }
        ensures next { IfOk result (λ r. (held : List ℕ) (passed : List Message) → RepliesStand self.old held passed false → ReplyOf r self.new held passed) }
        ensures good { IfOk result (λ r. IfSome r IsGood) }
    {
        let step = self.response.next()?;
        Ok(message(step))
    }

    /// Hands out the next message.
    pub fn next(&mut self) -> Result<Option<Frame>, NoMemory>
        ensures next { IfOk result (λ r. (held : List ℕ) (passed : List Message) → RepliesStand self.old held passed false → ReplyOf r self.new held passed) }
        ensures good { IfOk result (λ r. IfSome r IsGood) }
    {
        match self.greeting.take() {
            Some(cutter) => self.greet(cutter),
            None => self.respond(),
        }
    }

    /// From now on nothing is handed out.
    pub fn suspend(&mut self)
        ensures { (held : List ℕ) (passed : List Message) (suspended : Bool) → RepliesStand self.old held passed suspended → RepliesStand self.new held passed true }
    {
        self.response.suspend();
    }

    /// From now on messages are handed out.
    pub fn resume(&mut self)
        ensures { (held : List ℕ) (passed : List Message) (suspended : Bool) → RepliesStand self.old held passed suspended → RepliesStand self.new held passed false }
    {
        self.response.resume();
    }

    /// Whether all that was read was handed out.
    pub fn is_empty(&self) -> bool
        ensures { (held : List ℕ) (passed : List Message) (suspended : Bool) → RepliesStand self.now held passed suspended → result ≡ (length held == 0) }
    {
        match &self.greeting {
            Some(cutter) => cutter.held() == 0,
            None => self.response.tally().empty,
        }
    }

    /// What was counted behind the greeting.
    pub fn tally(&self) -> ResponseTally
        ensures { (held : List ℕ) (passed : List Message) (suspended : Bool) → RepliesStand self.now held passed suspended → TallyOf result held passed }
    {
        self.response.tally()
    }
}
