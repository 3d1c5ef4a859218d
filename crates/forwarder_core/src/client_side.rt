//! The client's side: its script, and its messages on their way to the pod.

ghost use Rattle.std.specs.Prelude.{◌≡◌, ◌==◌, ◌&&◌, not, nat_lt, true, false, List, ℕ, Bool, Option, Some, None, length, take, slice_get, if◌then◌else◌, OnOk, OnErr, IfOk};
ghost use Rattle.pgw_frames.specs.Frames.{frames, bad, IsGood};
ghost use Rattle.pgw_messages.specs.declared.params.Pair.{Pair};
ghost use Rattle.proxy_outside.specs.declared.identity.ClientKey.{ClientKey as Key};

use crate::connection::Connection;
use forwarder_world::Close;
use pgw_frames::{Frame, NoMemory};
use pgw_messages::tags;
use processor_core::Step;
use session_model::Session;

/// Whether these are as many bytes as a client may give at once.
fn may_be_given(piece: &[u8]) -> bool
    ensures { result ≡ (nat_lt 0 (length piece.now) && not (nat_lt 4096 (length piece.now))) }
{
    !piece.is_empty() && piece.len() <= 4096
}

/// A Terminate (PostgreSQL manual, Message Flow, Termination) ends the connection.
fn close_at_terminate(tag: u8) -> Option<Close>
    ensures { result ≡ (if tag == 88 then Some Close.Bye else None) }
{
    if tag == tags::TERMINATE {
        return Some(Close::Bye);
    }
    None
}

impl<S: Session> Connection<S> {
    ghost use Rattle.forwarder_world.specs.World.{World as model, gives, may_give, reads, forwards, client_ends};
    ghost use Rattle.processor_core.specs.Streams.{next_message};
    ghost use Rattle.forwarder_core.specs.Flow.{ConnectionStands, HandsOut, Leads, Comes, flow_of};

    /// The client gives bytes.
    pub fn give(&mut self, piece: &[u8]) -> Result<(), NoMemory>
        ensures stands { OnOk result (Leads S.state S.Store.stands_for self.old self.new (λ key p d. if may_give d piece.now then gives d piece.now else d)) }
        ensures err { OnErr result (self.new.received ≡ self.old.received) }
    {
        if self.whole || !may_be_given(piece) {
            return Ok(());
        }
        self.script.extend(piece)?;
        Ok(())
    }

    /// The client gives no more.
    pub fn end(&mut self)
        ensures stands { Leads S.state S.Store.stands_for self.old self.new (λ key p d. record d { whole = true }) }
        ensures kept { self.new.received ≡ self.old.received }
    {
        self.whole = true;
    }

    /// Up to so many further bytes of the client are read.
    pub fn read(&mut self, count: usize) -> Result<(), NoMemory>
        ensures stands { OnOk result (Leads S.state S.Store.stands_for self.old self.new (λ key p d. reads d count)) }
        ensures err { OnErr result (self.new.received ≡ self.old.received) }
    {
        let come = count.min(self.script.len());
        self.request.feed(self.script.as_slice().split_at(come).0)?;
        self.script.drop_front(come);
        self.counts.taken = self.counts.taken.saturating_add(come as u64);
        Ok(())
    }

    /// Whether the client gives no more, and all that it gave was read.
    fn is_read_whole(&self) -> bool
        ensures { (key : Key) (p : List Pair) (d : model S.State S.Store.State S.Store.Command) (parked held : Bool) → ConnectionStands S.state S.Store.stands_for key p self.now (flow_of d) parked held → result ≡ (d.whole && (d.read == length d.script)) }
    {
        self.whole && self.script.is_empty()
    }

    /// What the end of the client's script brings, where it has come.
    fn client_end(&self) -> Option<Close>
        ensures { (key : Key) (p : List Pair) (d : model S.State S.Store.State S.Store.Command) (parked held : Bool) → ConnectionStands S.state S.Store.stands_for key p self.now (flow_of d) parked held
            → next_message (take d.read d.script) d.forwarded ≡ None → Comes S.state S.Store.stands_for key p result self.now (client_ends d) d.mode parked held }
    {
        if !self.is_read_whole() {
            return None;
        }
        if self.request.is_empty() {
            return Some(Close::Bye);
        }
        Some(Close::ClientCut)
    }

    /// Sends the pod a message that was handed out.
    fn send(&mut self, f: &Frame) -> Result<Option<Close>, NoMemory>
        requires { IsGood f.now }
        ensures stands { IfOk result (λ r. (key : Key) (p : List Pair) (d : model S.State S.Store.State S.Store.Command) (held : Bool) (n : Option ℕ) → HandsOut S.state S.Store.stands_for key p self.old (flow_of d) f.now held
            → Comes S.state S.Store.stands_for key p r self.new (forwards d (Some f.now) n) d.mode false held) }
        ensures err { OnErr result (self.new.received ≡ self.old.received) }
    {
        if self.link.is_cut() {
            return Ok(Some(Close::PodWrite));
        }
        self.link.send(f)?;
        self.counts.forwarded = self.counts.forwarded.saturating_add(1);
        Ok(close_at_terminate(f.tag))
    }

    /// The next message of the client is sent to the pod; the connection may close by it.
    pub fn forward(&mut self) -> Result<Option<Close>, NoMemory>
        ensures stands { IfOk result (λ r. (key : Key) (p : List Pair) (d : model S.State S.Store.State S.Store.Command) (held : Bool) → ConnectionStands S.state S.Store.stands_for key p self.old (flow_of d) false held
            → Comes S.state S.Store.stands_for key p r self.new (forwards d (slice_get (frames (take d.read d.script)) (length d.forwarded)) (bad (take d.read d.script))) d.mode false held) }
        ensures err { OnErr result (self.new.received ≡ self.old.received) }
    {
        match self.request.next()? {
            Step::Frame(f) => self.send(&f),
            Step::Need => Ok(self.client_end()),
            Step::Bad(n) => Ok(Some(Close::BadClient(n))),
            Step::Stopped => Ok(None),
        }
    }
}
