//! What is counted of the messages that were handed out.

ghost use Rattle.std.specs.Prelude.{◌≡◌, ◌+◌, ◌-◌, ◌^◌, min, if◌then◌else◌, List, [], ◌∷◌, ◌++◌};
ghost use Rattle.pgw_frames.specs.declared.frame.Frame.{Frame as Message};
ghost use Rattle.session_model.specs.Tags.{is_ask, is_copy, one};
ghost use Rattle.processor_core.specs.Streams.{handed_by, CountsOn};
ghost use Rattle.processor_core.specs.Tallies.{request_tally, RepliesAre};

use crate::step::Step;
use pgw_messages::tags;

/// Of the messages of a client. Counts stop rising at 2^64 - 1.
#[derive(Clone, Copy, Debug, PartialEq, Eq)]
pub struct RequestTally {
    /// How many Query and Sync.
    pub qs: u64,
    /// The type of the last message, or 0.
    pub last: u8,
    /// The type of the last one that is no CopyData, CopyDone or CopyFail, or 0.
    pub last_plain: u8,
    /// Whether no message is handed out in part.
    pub at_boundary: bool,
}

/// Of the messages of a pod behind its greeting. Counts stop rising at 2^64 - 1.
#[derive(Clone, Copy, Debug, PartialEq, Eq)]
pub struct ResponseTally {
    /// How many ReadyForQuery.
    pub zs: u64,
    /// The type of the last message, or 0.
    pub last: u8,
    /// Whether nothing is held.
    pub empty: bool,
}

/// What is counted of a pod's messages as they go by.
#[derive(Debug, Drop)]
pub(crate) struct ReplyCounts {
    pub zs: u64,
    pub last: u8,
}

/// Query or Sync.
fn is_ask(tag: u8) -> bool
    ensures { result ≡ is_ask tag }
{
    tag == tags::QUERY || tag == tags::SYNC
}

/// CopyData, CopyDone or CopyFail.
fn is_copy(tag: u8) -> bool
    ensures { result ≡ is_copy tag }
{
    tag == tags::COPY_DATA || tag == tags::COPY_DONE || tag == tags::COPY_FAIL
}

/// A count with one more, where this is counted.
fn counted(count: u64, counts: bool) -> u64
    ensures { result ≡ min (count + one counts) (2 ^ 64 - 1) }
{
    if counts {
        return count.saturating_add(1);
    }
    count
}

/// The last type that is no copy message's, behind one message more.
fn last_plain(before: u8, tag: u8) -> u8
    ensures { result ≡ (if is_copy tag then before else tag) }
{
    if is_copy(tag) {
        return before;
    }
    tag
}

impl RequestTally {
    /// Of no message.
    pub(crate) fn new() -> RequestTally
        ensures { result ≡ request_tally [] }
    {
        RequestTally {
            qs: 0,
            last: 0,
            last_plain: 0,
            at_boundary: true,
        }
    }

    /// Of one message more, of this type.
    fn count(&mut self, tag: u8)
        ensures { (handed : List Message) (f : Message) → f.tag ≡ tag → self.old ≡ request_tally handed → self.new ≡ request_tally (handed ++ f ∷ []) }
    {
        self.qs = counted(self.qs, is_ask(tag));
        self.last = tag;
        self.last_plain = last_plain(self.last_plain, tag);
    }

    /// Of the message of this type, where one was handed out.
    pub(crate) fn count_next(&mut self, tag: Option<u8>)
        ensures { CountsOn tag (λ handed. self.old ≡ request_tally handed) (λ handed. self.new ≡ request_tally handed) }
    {
        match tag {
            Some(tag) => self.count(tag),
            None => {}
        }
    }

    /// Of what was handed out besides.
    pub(crate) fn count_step(&mut self, step: &Step)
        ensures { (handed : List Message) → self.old ≡ request_tally handed → self.new ≡ request_tally (handed_by step.now handed) }
    {
        match step {
            Step::Frame(f) => self.count(f.tag),
            Step::Need | Step::Bad(_) | Step::Stopped => {}
        }
    }
}

impl ReplyCounts {
    /// Of no message.
    pub fn new() -> ReplyCounts
        ensures { RepliesAre result [] }
    {
        ReplyCounts { zs: 0, last: 0 }
    }

    /// Of one message more, of this type.
    fn count(&mut self, tag: u8)
        ensures { (handed : List Message) (f : Message) → f.tag ≡ tag → RepliesAre self.old handed → RepliesAre self.new (handed ++ f ∷ []) }
    {
        self.zs = counted(self.zs, tag == tags::READY_FOR_QUERY);
        self.last = tag;
    }

    /// Of the message of this type, where one was handed out.
    pub fn count_next(&mut self, tag: Option<u8>)
        ensures { CountsOn tag (RepliesAre self.old) (RepliesAre self.new) }
    {
        match tag {
            Some(tag) => self.count(tag),
            None => {}
        }
    }

    /// Of what was handed out besides.
    pub fn count_step(&mut self, step: &Step)
        ensures { (handed : List Message) → RepliesAre self.old handed → RepliesAre self.new (handed_by step.now handed) }
    {
        match step {
            Step::Frame(f) => self.count(f.tag),
            Step::Need | Step::Bad(_) | Step::Stopped => {}
        }
    }
}
