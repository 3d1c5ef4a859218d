//! A client's connection: all of a World but where it stands.

ghost use Rattle.std.specs.Prelude.{◌≡◌, ◌++◌, true, false, List, Bool, OnOk, OnErr, IfOk};
ghost use Rattle.pgw_messages.specs.declared.params.Pair.{Pair};
ghost use Rattle.proxy_outside.specs.declared.identity.ClientKey.{ClientKey as Key};

use crate::link::Link;
use crate::replies::Replies;
use crate::startup::Startup;
use forwarder_world::Counts;
use pgw_frames::{ByteQueue, Bytes, Frame, NoMemory};
use pgw_messages::Params;
use processor_core::Request;
use proxy_outside::{ClientKey, Machine};
use safe_point::is_safe;
use session_model::{Session, SharedStore, TransferKey};
use std::alloc::Global;
use transfer_exchange::Exchange;

/// The client's script, the links to its pods, their store, and what the client received.
#[derive(Drop)]
pub(crate) struct Connection<S: Session> {
    pub(crate) alloc: Global,
    pub(crate) key: ClientKey,
    pub(crate) startup: Startup,
    pub(crate) counts: Counts,
    /// What the client gave and nobody read.
    pub(crate) script: ByteQueue,
    /// Whether the client gives no more.
    pub(crate) whole: bool,
    pub(crate) request: Request,
    pub(crate) link: Link<S>,
    pub(crate) replies: Replies,
    /// The link to the new pod.
    pub(crate) fresh: Option<Link<S>>,
    /// Whether the next dial fails.
    pub(crate) no_dial: bool,
    pub(crate) store: SharedStore<S::Store>,
    pub(crate) received: Bytes,
}

impl<S: Session> Connection<S> {
    ghost use Rattle.forwarder_world.specs.Link.{next_of_got, holds_nothing};
    ghost use Rattle.forwarder_world.specs.World.{World as model, start, others};
    ghost use Rattle.transfer_stages.specs.declared.stage.Stage.TheVariants as at;
    ghost use Rattle.transfer_exchange.specs.Course.{key_of, params_of, stage_of};
    ghost use Rattle.session_model.specs.SafePoint.{safe, behind_greeting};
    ghost use Rattle.session_model.specs.Heard.{has_ready};
    ghost use Rattle.forwarder_core.specs.Starting.{CanStart};
    ghost use Rattle.forwarder_core.specs.LinkStands.{taken_by};
    ghost use Rattle.forwarder_core.specs.Flow.{ConnectionStands, Leads, flow_of};

    pub fn start(alloc: Global, params: Params, key: ClientKey) -> Result<Connection<S>, NoMemory>
        requires { CanStart params }
        ensures { IfOk result (λ c. ConnectionStands S.state S.Store.stands_for key params c (flow_of (start S.kind S.Store.rules params)) false false) }
    {
        let startup = Startup::new(params);
        let link = Link::opened(alloc, &startup)?;
        let store = SharedStore::open(alloc)?;
        Ok(Connection {
            alloc,
            key,
            startup,
            counts: Counts {
                moves: 0,
                failed: 0,
                taken: 0,
                forwarded: 0,
                passed: 0,
            },
            script: ByteQueue::new(alloc),
            whole: false,
            request: Request::new(alloc),
            link,
            replies: Replies::new(alloc),
            fresh: None,
            no_dial: false,
            store,
            received: Bytes::new(alloc),
        })
    }

    pub fn received(&self) -> &[u8]
        ensures { result.now ≡ self.now.received }
    {
        self.received.as_slice()
    }

    pub fn counts(&self) -> Counts
        ensures { result ≡ self.now.counts }
    {
        self.counts
    }

    /// Another client steps the store.
    pub fn other(&mut self, command: &<S::Store as Machine>::Command) -> Result<(), NoMemory>
        ensures stands { OnOk result (Leads S.state S.Store.stands_for self.old self.new (λ key p d. others S.Store.rules d command.now)) }
        ensures err { OnErr result (self.new.received ≡ self.old.received) }
    {
        self.store.step(command)?;
        Ok(())
    }

    /// Whether the greeting has ended.
    pub fn is_greeted(&self) -> bool
        ensures { (key : Key) (p : List Pair) (d : model S.State S.Store.State S.Store.Command) (parked held : Bool) → ConnectionStands S.state S.Store.stands_for key p self.now (flow_of d) parked held → result ≡ has_ready d.passed }
    {
        self.replies.is_greeted()
    }

    /// Whether all that was read of the pod was handed out.
    pub fn holds_nothing(&self) -> bool
        ensures { (key : Key) (p : List Pair) (d : model S.State S.Store.State S.Store.Command) (parked held : Bool) → ConnectionStands S.state S.Store.stands_for key p self.now (flow_of d) parked held → result ≡ holds_nothing d.link }
    {
        self.replies.is_empty()
    }

    /// Suspends the request side.
    pub fn park(&mut self)
        ensures stands { (key : Key) (p : List Pair) (d : model S.State S.Store.State S.Store.Command) (parked held : Bool) → ConnectionStands S.state S.Store.stands_for key p self.old (flow_of d) parked held
            → ConnectionStands S.state S.Store.stands_for key p self.new (flow_of d) true held }
        ensures kept { self.new.received ≡ self.old.received }
    {
        self.request.suspend();
    }

    /// Suspends the response side, which holds nothing.
    pub fn hold(&mut self)
        ensures stands { (key : Key) (p : List Pair) (d : model S.State S.Store.State S.Store.Command) (parked held : Bool) → holds_nothing d.link ≡ true → ConnectionStands S.state S.Store.stands_for key p self.old (flow_of d) parked held
            → ConnectionStands S.state S.Store.stands_for key p self.new (flow_of d) parked true }
        ensures kept { self.new.received ≡ self.old.received }
    {
        self.replies.suspend();
    }

    /// Lets both sides go on.
    pub fn resume(&mut self)
        ensures stands { (key : Key) (p : List Pair) (d : model S.State S.Store.State S.Store.Command) (parked held : Bool) → ConnectionStands S.state S.Store.stands_for key p self.old (flow_of d) parked held
            → ConnectionStands S.state S.Store.stands_for key p self.new (flow_of d) false false }
        ensures kept { self.new.received ≡ self.old.received }
    {
        self.request.resume();
        self.replies.resume();
    }

    /// Whether the session may be moved, with the response side suspended.
    pub fn is_safe(&self) -> bool
        ensures { (key : Key) (p : List Pair) (d : model S.State S.Store.State S.Store.Command) (parked : Bool) → ConnectionStands S.state S.Store.stands_for key p self.now (flow_of d) parked true → result ≡ safe d.forwarded (behind_greeting d.passed) }
    {
        is_safe(&self.request.tally(), &self.replies.tally())
    }

    /// A transfer of this session with this key.
    pub fn exchange(&self, key: &TransferKey) -> Result<Exchange, NoMemory>
        ensures { IfOk result (λ e. (key_of e ≡ key.now) × (params_of e ≡ self.now.startup) × (stage_of e ≡ at.AskOld)) }
    {
        let exchange = Exchange::start(self.alloc, key, self.startup.params())?;
        Ok(exchange)
    }

    pub fn is_cut(&self) -> bool
        ensures { (key : Key) (p : List Pair) (d : model S.State S.Store.State S.Store.Command) (parked held : Bool) → ConnectionStands S.state S.Store.stands_for key p self.now (flow_of d) parked held → result ≡ d.link.cut }
    {
        self.link.is_cut()
    }

    /// Sends the pod the bytes of messages that are not the client's.
    pub fn send_bytes(&mut self, bytes: &[u8]) -> Result<(), NoMemory>
        ensures stands { OnOk result (Leads S.state S.Store.stands_for self.old self.new (λ key p d. record d { link = record d.link { sent = d.link.sent ++ bytes.now } })) }
        ensures err { OnErr result (self.new.received ≡ self.old.received) }
    {
        self.link.send_bytes(bytes)?;
        Ok(())
    }

    /// Takes the next message of the pod, and passes it to nobody.
    pub fn take_frame(&mut self) -> Result<Option<Frame>, NoMemory>
        ensures next { IfOk result (λ r. (key : Key) (p : List Pair) (d : model S.State S.Store.State S.Store.Command) (parked : Bool) → ConnectionStands S.state S.Store.stands_for key p self.old (flow_of d) parked true → r ≡ next_of_got d.link) }
        ensures stands { IfOk result (λ r. (key : Key) (p : List Pair) (d : model S.State S.Store.State S.Store.Command) (parked : Bool) → ConnectionStands S.state S.Store.stands_for key p self.old (flow_of d) parked true
            → ConnectionStands S.state S.Store.stands_for key p self.new (flow_of (record d { link = taken_by d.link r })) parked true) }
        ensures kept { self.new.received ≡ self.old.received }
    {
        let next = self.link.take_frame()?;
        Ok(next)
    }
}
