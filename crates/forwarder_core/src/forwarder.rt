//! Where a connection stands, and what each event does to it.

ghost use Rattle.std.specs.Prelude.{List, ◌≡◌, ◌&&◌, Bool, false, None, IfOk, OnOk, OnErr};
ghost use Rattle.forwarder_world.specs.World.{Running, is_closed as is_closed_mode};
ghost use Rattle.forwarder_core.specs.Stands.{is_held, runs_on, may_hold};
ghost use Rattle.pgw_messages.specs.declared.params.Pair.{Pair};
ghost use Rattle.proxy_outside.specs.declared.identity.ClientKey.{ClientKey as Key};

use crate::connection::Connection;
use crate::phases::{close, enter, is_closed, is_forwarding, is_parked, is_running, is_stopping};
use forwarder_world::{Counts, Event, Phase};
use pgw_frames::NoMemory;
use pgw_messages::Params;
use proxy_outside::{ClientKey, Machine};
use session_model::{Session, TransferKey};
use std::alloc::Global;
use transfer_exchange::Exchange;

/// A World that was not given up.
#[derive(Drop)]
pub(crate) struct Forwarder<S: Session> {
    pub(crate) phase: Phase,
    /// Whether the response side is suspended.
    pub(crate) held: bool,
    /// The transfer that is under way.
    pub(crate) exchange: Option<Exchange>,
    pub(crate) connection: Connection<S>,
}

impl<S: Session> Forwarder<S> {
    ghost use Rattle.session_model.specs.Heard.{has_ready};
    ghost use Rattle.forwarder_world.specs.Link.{holds_nothing};
    ghost use Rattle.forwarder_world.specs.World.{World as model, start, steps, happens, begins, holds, parks, stops};
    ghost use Rattle.forwarder_world.specs.declared.event.Event.TheVariants as event;
    ghost use Rattle.forwarder_core.specs.Starting.{CanStart};
    ghost use Rattle.forwarder_core.specs.Flow.{ConnectionStands, flow_of};
    ghost use Rattle.forwarder_core.specs.Stands.{ForwarderStands, Steps};

    pub fn start(alloc: Global, params: Params, key: ClientKey) -> Result<Forwarder<S>, NoMemory>
        requires { CanStart params }
        ensures { IfOk result (λ w. ForwarderStands S.state S.Store.stands_for key params w (start S.kind S.Store.rules params)) }
    {
        Ok(Forwarder {
            phase: Phase::Running,
            held: false,
            exchange: None,
            connection: Connection::start(alloc, params, key)?,
        })
    }

    /// Up to so many further bytes of the client are read.
    fn read(&mut self, count: u32) -> Result<(), NoMemory>
        ensures stands { OnOk result (Steps S.state S.Store.stands_for self.old self.new (λ key p d. steps S.kind S.Store.rules key p d (event.Read count))) }
        ensures err { OnErr result (self.new.connection.received ≡ self.old.connection.received) }
    {
        if !is_forwarding(&self.phase) {
            return Ok(());
        }
        self.connection.read(count as usize)?;
        Ok(())
    }

    /// The next message of the client is sent to the pod.
    fn forward(&mut self) -> Result<(), NoMemory>
        ensures stands { OnOk result (Steps S.state S.Store.stands_for self.old self.new (λ key p d. steps S.kind S.Store.rules key p d event.Forward)) }
        ensures err { OnErr result (self.new.connection.received ≡ self.old.connection.received) }
    {
        if !is_forwarding(&self.phase) {
            return Ok(());
        }
        let why = self.connection.forward()?;
        close(&mut self.phase, why);
        Ok(())
    }

    /// Up to so many further bytes of the pod are read.
    fn back(&mut self, count: u32) -> Result<(), NoMemory>
        ensures stands { OnOk result (Steps S.state S.Store.stands_for self.old self.new (λ key p d. steps S.kind S.Store.rules key p d (event.Back count))) }
        ensures err { OnErr result (self.new.connection.received ≡ self.old.connection.received) }
    {
        if self.held {
            return Ok(());
        }
        self.connection.back(count as usize)?;
        Ok(())
    }

    /// The next message of the pod is passed to the client.
    fn pass(&mut self) -> Result<(), NoMemory>
        ensures stands { OnOk result (Steps S.state S.Store.stands_for self.old self.new (λ key p d. steps S.kind S.Store.rules key p d event.Pass)) }
        ensures err { OnErr result (self.new.connection.received ≡ self.old.connection.received) }
    {
        if self.held {
            return Ok(());
        }
        let why = self.connection.pass()?;
        close(&mut self.phase, why);
        Ok(())
    }

    fn may_stop(&self) -> bool
        ensures { (key : Key) (p : List Pair) (d : model S.State S.Store.State S.Store.Command) → is_closed_mode d.mode ≡ false → ForwarderStands S.state S.Store.stands_for key p self.now d → result ≡ (runs_on d.mode && has_ready d.passed) }
    {
        is_running(&self.phase) && self.connection.is_greeted()
    }

    fn may_hold(&self) -> bool
        ensures { (key : Key) (p : List Pair) (d : model S.State S.Store.State S.Store.Command) → is_closed_mode d.mode ≡ false → ForwarderStands S.state S.Store.stands_for key p self.now d → result ≡ (may_hold d.mode && holds_nothing d.link) }
    {
        is_parked(&self.phase) && self.connection.holds_nothing()
    }

    fn may_begin(&self) -> bool
        ensures { (key : Key) (p : List Pair) (d : model S.State S.Store.State S.Store.Command) → is_closed_mode d.mode ≡ false → ForwarderStands S.state S.Store.stands_for key p self.now d → result ≡ (may_hold d.mode && is_held d.mode) }
    {
        is_parked(&self.phase) && self.held
    }

    /// It is to stop, once the greeting has ended.
    fn stop(&mut self)
        ensures stands { Steps S.state S.Store.stands_for self.old self.new (λ key p d. stops d d.mode) }
        ensures kept { self.new.connection.received ≡ self.old.connection.received }
    {
        if self.may_stop() {
            enter(&mut self.phase, Phase::Stop);
        }
    }

    /// The request side is suspended.
    fn park(&mut self)
        ensures stands { Steps S.state S.Store.stands_for self.old self.new (λ key p d. parks d d.mode) }
        ensures kept { self.new.connection.received ≡ self.old.connection.received }
    {
        if is_stopping(&self.phase) {
            self.connection.park();
            enter(&mut self.phase, Phase::Parked);
        }
    }

    /// The response side is suspended, where it holds nothing.
    fn hold(&mut self)
        ensures stands { Steps S.state S.Store.stands_for self.old self.new (λ key p d. holds d d.mode) }
        ensures kept { self.new.connection.received ≡ self.old.connection.received }
    {
        if self.may_hold() {
            self.connection.hold();
            self.held = true;
        }
    }

    /// Both sides go on.
    pub(crate) fn go_on(&mut self)
        ensures stands { (key : Key) (p : List Pair) (d : model S.State S.Store.State S.Store.Command) (parked held : Bool) → self.old.exchange ≡ None → ConnectionStands S.state S.Store.stands_for key p self.old.connection (flow_of d) parked held
            → ForwarderStands S.state S.Store.stands_for key p self.new (record d { mode = Running }) }
        ensures kept { self.new.connection.received ≡ self.old.connection.received }
    {
        self.connection.resume();
        self.held = false;
        enter(&mut self.phase, Phase::Running);
    }

    /// A transfer begins, where both sides are suspended and the session may be moved. Elsewhere they
    /// go on.
    fn begin(&mut self, key: &TransferKey) -> Result<(), NoMemory>
        ensures stands { OnOk result (Steps S.state S.Store.stands_for self.old self.new (λ _ p d. begins d key.now d.mode)) }
        ensures err { OnErr result (self.new.connection.received ≡ self.old.connection.received) }
    {
        if !self.may_begin() {
            return Ok(());
        }
        if !self.connection.is_safe() {
            self.go_on();
            return Ok(());
        }
        let exchange = self.connection.exchange(key)?;
        self.exchange = Some(exchange);
        enter(&mut self.phase, Phase::Exchange);
        Ok(())
    }

    /// One event, where it isn't closed.
    fn act(&mut self, e: &Event<<S::Store as Machine>::Command>) -> Result<(), NoMemory>
        ensures stands { OnOk result (Steps S.state S.Store.stands_for self.old self.new (λ key p d. steps S.kind S.Store.rules key p d e.now)) }
        ensures err { OnErr result (self.new.connection.received ≡ self.old.connection.received) }
    {
        match e {
            Event::Give(b) => self.connection.give(b.as_slice()),
            Event::Eof => {
                self.connection.end();
                Ok(())
            }
            Event::Read(n) => self.read(*n),
            Event::Forward => self.forward(),
            Event::Deliver(n) => self.connection.deliver(*n as usize),
            Event::Pod => self.connection.pod(),
            Event::Back(n) => self.back(*n),
            Event::Pass => self.pass(),
            Event::Other(c) => self.connection.other(c),
            Event::Stop => {
                self.stop();
                Ok(())
            }
            Event::Park => {
                self.park();
                Ok(())
            }
            Event::Hold => {
                self.hold();
                Ok(())
            }
            Event::Start(t) => self.begin(t),
            Event::Move => self.advance(),
            Event::DeliverNew(n) => self.connection.deliver_new(*n as usize),
            Event::PodNew => self.connection.pod_new(),
            Event::Cut(n) => {
                self.connection.cut(*n as usize);
                Ok(())
            }
            Event::CutNew(n) => {
                self.connection.cut_new(*n as usize);
                Ok(())
            }
            Event::NoDial => {
                self.connection.fail_next_dial();
                Ok(())
            }
        }
    }

    /// One event. A closed World stays as it is.
    pub fn step(&mut self, e: &Event<<S::Store as Machine>::Command>) -> Result<(), NoMemory>
        ensures stands { OnOk result ((key : Key) (p : List Pair) (d : model S.State S.Store.State S.Store.Command) → ForwarderStands S.state S.Store.stands_for key p self.old d → ForwarderStands S.state S.Store.stands_for key p self.new (happens S.kind S.Store.rules key p d e.now)) }
        ensures err { OnErr result (self.new.connection.received ≡ self.old.connection.received) }
    {
        if is_closed(&self.phase) {
            return Ok(());
        }
        self.act(e)?;
        Ok(())
    }

    pub fn received(&self) -> &[u8]
        ensures { result.now ≡ self.now.connection.received }
    {
        self.connection.received()
    }

    pub fn phase(&self) -> &Phase
        ensures { result.now ≡ self.now.phase }
    {
        &self.phase
    }

    pub fn counts(&self) -> Counts
        ensures { result ≡ self.now.connection.counts }
    {
        self.connection.counts()
    }
}
