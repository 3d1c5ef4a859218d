//! The current pod's side: what reaches it, and its messages on their way to the client.

ghost use Rattle.std.specs.Prelude.{◌≡◌, false, List, Bool, None, if◌then◌else◌, OnOk, OnErr, IfOk};
ghost use Rattle.pgw_messages.specs.declared.params.Pair.{Pair};
ghost use Rattle.proxy_outside.specs.declared.identity.ClientKey.{ClientKey as Key};

use crate::connection::Connection;
use crate::shown::shown;
use forwarder_world::Close;
use pgw_frames::{NoMemory, write_frame};
use session_model::Session;

impl<S: Session> Connection<S> {
    ghost use Rattle.forwarder_world.specs.Link.{delivers, reads_back, cuts, next_to_pod, next_of_read};
    ghost use Rattle.forwarder_world.specs.World.{World as model, pod_takes, passes};
    ghost use Rattle.forwarder_core.specs.LinkStands.{unless_cut};
    ghost use Rattle.forwarder_core.specs.Flow.{ConnectionStands, Leads, Comes, flow_of};

    /// Up to so many further bytes reach the pod.
    pub fn deliver(&mut self, count: usize) -> Result<(), NoMemory>
        ensures stands { OnOk result (Leads S.state S.Store.stands_for self.old self.new (λ key p d. record d { link = unless_cut (λ l. delivers l count) d.link })) }
        ensures err { OnErr result (self.new.received ≡ self.old.received) }
    {
        self.link.deliver(count)?;
        Ok(())
    }

    /// The pod takes the next message.
    pub fn pod(&mut self) -> Result<(), NoMemory>
        ensures stands { OnOk result (Leads S.state S.Store.stands_for self.old self.new (λ key p d. if d.link.cut then d else pod_takes S.kind S.Store.rules d d.link.session (next_to_pod d.link))) }
        ensures err { OnErr result (self.new.received ≡ self.old.received) }
    {
        if self.link.is_cut() {
            return Ok(());
        }
        self.link.hear(self.alloc, &mut self.store)?;
        Ok(())
    }

    /// Up to so many further bytes of the pod are read.
    pub fn back(&mut self, count: usize) -> Result<(), NoMemory>
        ensures stands { OnOk result ((key : Key) (p : List Pair) (d : model S.State S.Store.State S.Store.Command) (parked : Bool) → ConnectionStands S.state S.Store.stands_for key p self.old (flow_of d) parked false
            → ConnectionStands S.state S.Store.stands_for key p self.new (flow_of (record d { link = reads_back d.link count })) parked false) }
        ensures err { OnErr result (self.new.received ≡ self.old.received) }
    {
        let come = self.link.unread_len(count);
        self.replies.feed(self.link.unread(come))?;
        self.link.read(come);
        Ok(())
    }

    /// Whether the pod has ended and all that it sent was read.
    fn pod_end(&self) -> Option<Close>
        ensures { (key : Key) (p : List Pair) (d : model S.State S.Store.State S.Store.Command) (parked held : Bool) → ConnectionStands S.state S.Store.stands_for key p self.now (flow_of d) parked held
            → Comes S.state S.Store.stands_for key p result self.now (passes key d None) d.mode parked held }
    {
        if self.link.has_ended() {
            return Some(Close::PodEnded);
        }
        None
    }

    /// The next message of the pod is passed to the client; the connection may close where there is none.
    pub fn pass(&mut self) -> Result<Option<Close>, NoMemory>
        ensures stands { IfOk result (λ r. (key : Key) (p : List Pair) (d : model S.State S.Store.State S.Store.Command) (parked : Bool) → ConnectionStands S.state S.Store.stands_for key p self.old (flow_of d) parked false
            → Comes S.state S.Store.stands_for key p r self.new (passes key d (next_of_read d.link)) d.mode parked false) }
        ensures err { OnErr result (self.new.received ≡ self.old.received) }
    {
        let greeted = self.replies.is_greeted();
        match self.replies.next()? {
            None => Ok(self.pod_end()),
            Some(f) => {
                let g = shown(self.alloc, greeted, self.key, f)?;
                write_frame(&g, &mut self.received)?;
                self.counts.passed = self.counts.passed.saturating_add(1);
                Ok(None)
            }
        }
    }

    /// The current link is cut, with at most so many bytes still to be read.
    pub fn cut(&mut self, count: usize)
        ensures stands { Leads S.state S.Store.stands_for self.old self.new (λ key p d. record d { link = unless_cut (λ l. cuts l count) d.link }) }
        ensures kept { self.new.received ≡ self.old.received }
    {
        self.link.cut(count);
    }
}
