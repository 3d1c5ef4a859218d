//! A World: one session, its client and its pod, over any schedule.

ghost use Rattle.std.specs.Prelude.{List, ℕ, ◌≡◌, ◌<◌, take, length, IsTrue, IsErr, IfOk, OnOk, OnErr};
ghost use Rattle.pgw_messages.specs.Startup.{Fits};
ghost use Rattle.pgw_messages.specs.declared.params.Pair.{Pair};
ghost use Rattle.proxy_outside.specs.declared.identity.ClientKey.{ClientKey as Key};
ghost use Rattle.forwarder_world.specs.World.{World as model, start, happens, run, phase_of, counts_of};
ghost use Rattle.forwarder_world.specs.declared.event.Event.{Event as Happening};

use crate::forwarder::Forwarder;
use forwarder_world::{Counts, Event, Phase};
use pgw_frames::NoMemory;
use pgw_messages::Params;
use proxy_outside::{ClientKey, Machine};
use session_model::Session;
use std::alloc::Global;

/// A client's script, a link to a pod with a session at its end, and what the client received. It
/// takes one event after another. After `NoMemory` it is given up: what it received is as before that
/// event, and every later step answers `NoMemory`.
#[derive(Drop)]
pub struct World<S: Session> {
    forwarder: Forwarder<S>,
    given_up: bool,
}

impl<S: Session> World<S> {
    ghost use Rattle.forwarder_core.specs.Starting.{CanStart};
    ghost use Rattle.forwarder_core.specs.Stands.{WorldStands, IsGivenUpAs, is_given_up, received_of};
    ghost use Rattle.forwarder_core.specs.Hears.{Hears, Turns};

    /// A World whose pod has taken the startup packet and greets, and whose client has given and
    /// received nothing.
    pub fn start(alloc: Global, params: Params, key: ClientKey) -> Result<World<S>, NoMemory>
        requires { CanStart params }
        ensures { IfOk result (λ w. WorldStands S.state S.Store.stands_for key params w (start S.kind S.Store.rules params)) }
    {
        Ok(World {
            forwarder: Forwarder::start(alloc, params, key)?,
            given_up: false,
        })
    }

    /// One event. One whose condition fails changes nothing.
    pub fn step(&mut self, e: &Event<<S::Store as Machine>::Command>) -> Result<(), NoMemory>
        ensures stands { OnOk result ((key : Key) (p : List Pair) (d : model S.State S.Store.State S.Store.Command) → WorldStands S.state S.Store.stands_for key p self.old d → WorldStands S.state S.Store.stands_for key p self.new (happens S.kind S.Store.rules key p d e.now)) }
        ensures turns { (key : Key) (p : List Pair) (d : model S.State S.Store.State S.Store.Command) → WorldStands S.state S.Store.stands_for key p self.old d → Turns S.kind S.Store.rules key p d e.now }
        ensures err { OnErr result (IsTrue (is_given_up self.new)) }
        ensures kept { OnErr result (received_of self.new ≡ received_of self.old) }
        ensures given_up { IsTrue (is_given_up self.old) → IsErr result }
    {
        if self.given_up {
            return Err(NoMemory);
        }
        self.given_up = true;
        self.forwarder.step(e)?;
        self.given_up = false;
        Ok(())
    }

    /// A whole schedule. After an `Err` what was received is that of the events before the one that
    /// found no memory. A World that was given up takes no event, and keeps what it received.
    pub fn run(&mut self, es: &[Event<<S::Store as Machine>::Command>]) -> Result<(), NoMemory>
        ensures stands { OnOk result ((key : Key) (p : List Pair) (d : model S.State S.Store.State S.Store.Command) → WorldStands S.state S.Store.stands_for key p self.old d → WorldStands S.state S.Store.stands_for key p self.new (run S.kind S.Store.rules key p d es.now)) }
        ensures err { OnErr result (IsTrue (is_given_up self.new)) }
        ensures kept { OnErr result ((key : Key) (p : List Pair) (d : model S.State S.Store.State S.Store.Command) → WorldStands S.state S.Store.stands_for key p self.old d → (n : ℕ) × (received_of self.new ≡ (run S.kind S.Store.rules key p d (take n es.now)).received)) }
        ensures turns { (key : Key) (p : List Pair) (d : model S.State S.Store.State S.Store.Command) (n : ℕ) (e : Happening S.Store.Command) → Turns S.kind S.Store.rules key p (run S.kind S.Store.rules key p d (take n es.now)) e }
        ensures given_up { IsTrue (is_given_up self.old) → 0 < length es.now → IsErr result }
        ensures kept_given_up { IsTrue (is_given_up self.old) → IsGivenUpAs self.old self.new }
    {
        for e in es {
            self.step(e)?;
        }
        Ok(())
    }

    /// What the client received: it begins what the client hears of one session that was told the
    /// forwarded messages, each once and in order, and was never moved.
    pub fn received(&self) -> &[u8]
        ensures value { result.now ≡ received_of self.now }
        ensures stands { (key : Key) (p : List Pair) (d : model S.State S.Store.State S.Store.Command) → WorldStands S.state S.Store.stands_for key p self.now d → result.now ≡ d.received }
        ensures headline { (key : Key) (p : List Pair) (es : List (Happening S.Store.Command)) → Fits p → WorldStands S.state S.Store.stands_for key p self.now (run S.kind S.Store.rules key p (start S.kind S.Store.rules p) es) → Hears S.kind S.Store.rules key p (run S.kind S.Store.rules key p (start S.kind S.Store.rules p) es) result.now }
    {
        self.forwarder.received()
    }

    /// Where it stands.
    pub fn phase(&self) -> &Phase
        ensures { (key : Key) (p : List Pair) (d : model S.State S.Store.State S.Store.Command) → WorldStands S.state S.Store.stands_for key p self.now d → result.now ≡ phase_of d.mode }
    {
        self.forwarder.phase()
    }

    /// What it counted.
    pub fn counts(&self) -> Counts
        ensures { (key : Key) (p : List Pair) (d : model S.State S.Store.State S.Store.Command) → WorldStands S.state S.Store.stands_for key p self.now d → result ≡ counts_of d }
    {
        self.forwarder.counts()
    }
}
