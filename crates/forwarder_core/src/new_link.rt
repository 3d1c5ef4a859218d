//! The link to a new pod.

ghost use Rattle.std.specs.Prelude.{◌≡◌, [], not, true, false, List, Bool, Some, None, option_map, if◌then◌else◌, OnOk, OnErr};
ghost use Rattle.pgw_messages.specs.declared.params.Pair.{Pair};
ghost use Rattle.proxy_outside.specs.declared.identity.ClientKey.{ClientKey as Key};

use crate::connection::Connection;
use crate::link::Link;
use pgw_frames::NoMemory;
use session_model::Session;

impl<S: Session> Connection<S> {
    ghost use Rattle.forwarder_world.specs.Link.{Link as link_model, delivers, dialed, cuts};
    ghost use Rattle.forwarder_world.specs.World.{World as model, new_pod, fails, moved};
    ghost use Rattle.forwarder_core.specs.LinkStands.{LinkStands, FreshStands, unless_cut};
    ghost use Rattle.forwarder_core.specs.Flow.{ConnectionStands, Leads, flow_of};

    /// Up to so many further bytes reach the new pod.
    pub fn deliver_new(&mut self, count: usize) -> Result<(), NoMemory>
        ensures stands { OnOk result (Leads S.state S.Store.stands_for self.old self.new (λ key p d. record d { fresh = option_map (unless_cut (λ l. delivers l count)) d.fresh })) }
        ensures err { OnErr result (self.new.received ≡ self.old.received) }
    {
        match &mut self.fresh {
            None => Ok(()),
            Some(link) => {
                link.deliver(count)?;
                Ok(())
            }
        }
    }

    /// The new pod takes the startup packet, or else the next message.
    pub fn pod_new(&mut self) -> Result<(), NoMemory>
        ensures stands { OnOk result (Leads S.state S.Store.stands_for self.old self.new (λ key p d. new_pod S.kind S.Store.rules p d d.fresh)) }
        ensures err { OnErr result (self.new.received ≡ self.old.received) }
    {
        match &mut self.fresh {
            None => Ok(()),
            Some(link) => {
                link.take_turn(self.alloc, &self.startup, &mut self.store)?;
                Ok(())
            }
        }
    }

    /// The new link is cut, with at most so many bytes still to be read.
    pub fn cut_new(&mut self, count: usize)
        ensures stands { Leads S.state S.Store.stands_for self.old self.new (λ key p d. record d { fresh = option_map (unless_cut (λ l. cuts l count)) d.fresh }) }
        ensures kept { self.new.received ≡ self.old.received }
    {
        if let Some(link) = &mut self.fresh {
            link.cut(count);
        }
    }

    /// The next dial fails.
    pub fn fail_next_dial(&mut self)
        ensures stands { Leads S.state S.Store.stands_for self.old self.new (λ key p d. record d { no_dial = true }) }
        ensures kept { self.new.received ≡ self.old.received }
    {
        self.no_dial = true;
    }

    /// Dials the new pod, and says whether there is a link to it.
    pub fn dial(&mut self) -> bool
        ensures linked { (key : Key) (p : List Pair) (d : model S.State S.Store.State S.Store.Command) (parked held : Bool) → ConnectionStands S.state S.Store.stands_for key p self.old (flow_of d) parked held → result ≡ not d.no_dial }
        ensures stands { Leads S.state S.Store.stands_for self.old self.new (λ key p d. if d.no_dial then record d { no_dial = false } else record d { fresh = Some dialed }) }
        ensures kept { self.new.received ≡ self.old.received }
    {
        if self.no_dial {
            self.no_dial = false;
            return false;
        }
        self.fresh = Some(Link::dialed(self.alloc));
        true
    }

    /// Takes the new link out, where there is one.
    pub fn take_fresh(&mut self) -> Option<Link<S>>
        ensures link { (key : Key) (p : List Pair) (d : model S.State S.Store.State S.Store.Command) (parked held : Bool) → ConnectionStands S.state S.Store.stands_for key p self.old (flow_of d) parked held → FreshStands S.state result d.fresh }
        ensures stands { Leads S.state S.Store.stands_for self.old self.new (λ key p d. record d { fresh = None }) }
        ensures kept { self.new.received ≡ self.old.received }
    {
        self.fresh.take()
    }

    /// A transfer failed: there is no new link any more.
    pub fn fail(&mut self)
        ensures stands { Leads S.state S.Store.stands_for self.old self.new (λ key p d. fails d) }
        ensures kept { self.new.received ≡ self.old.received }
    {
        self.fresh = None;
        self.counts.failed = self.counts.failed.saturating_add(1);
    }

    /// The session was moved to this link.
    pub fn adopt(&mut self, link: Link<S>)
        ensures stands { (key : Key) (p : List Pair) (d : model S.State S.Store.State S.Store.Command) (l : link_model S.State) (parked : Bool) → ConnectionStands S.state S.Store.stands_for key p self.old (flow_of (record d { fresh = None })) parked true
            → LinkStands S.state link l [] → ConnectionStands S.state S.Store.stands_for key p self.new (flow_of (moved d (Some l))) parked true }
        ensures kept { self.new.received ≡ self.old.received }
    {
        self.link = link;
        self.counts.moves = self.counts.moves.saturating_add(1);
    }
}
