//! A connection's port.

ghost use Rattle.std.specs.Prelude.{◌≡◌, None};
ghost use Rattle.proxy_hub.specs.Ports.{Asks};
ghost use Rattle.bell_hub.specs.Sessions.{released_by, admitted_by, tenant_after, at_bells};

use crate::bells::Bells;
use atomic_board::Bell;
use proxy_hub::{HubCommand, HubFault, HubPort, HubReply};
use proxy_outside::{SessionNo, TenantId};
use std::marker::Model;
use std::sync::Wait;

/// Passes all on to a port, and keeps the connection's bell among the others while its session is live. Contracts
/// see the port, and the tenant of whom a session was asked for last.
#[derive(Drop)]
pub struct BellHub<'a, H> {
    hub: H,
    bells: &'a Bells,
    /// The connection's bell, until its session is admitted.
    bell: Option<Bell>,
    tenant: Option<TenantId>,
}

impl<'a, H> Model for BellHub<'a, H> {
    ghost use Rattle.bell_hub.specs.Sessions.{AtBells, at_bells};

    ghost Value = { AtBells H };

    ghost view = { λ b. at_bells b.hub b.tenant };
}

/// Whose end the command tells.
fn released_by(c: &HubCommand) -> Option<SessionNo>
    ensures { result ≡ released_by c.now }
{
    match c {
        HubCommand::Release { session } => Some(*session),
        _ => None,
    }
}

/// Who was admitted.
fn admitted_by(answer: &Result<HubReply, HubFault>) -> Option<SessionNo>
    ensures { result ≡ admitted_by answer.now }
{
    match answer {
        Ok(HubReply::Admitted(session)) => Some(*session),
        _ => None,
    }
}

/// Of whom a session was asked for last.
fn tenant_after(tenant: Option<TenantId>, c: &HubCommand) -> Option<TenantId>
    ensures { result ≡ tenant_after tenant c.now }
{
    match c {
        HubCommand::Admit { tenant: asked, .. } => Some(*asked),
        _ => tenant,
    }
}

impl<'a, H: HubPort> BellHub<'a, H> {
    /// A port for one connection, over a port of its own. It takes no memory.
    pub fn make(hub: H, bells: &'a Bells, bell: Bell) -> BellHub<'a, H>
        ensures { result ≡ at_bells hub None }
    {
        BellHub {
            hub,
            bells,
            bell: Some(bell),
            tenant: None,
        }
    }

    /// The tenant of whom a session was asked for last.
    pub fn tenant(&self) -> Option<TenantId>
        ensures { result ≡ self.now.tenant }
    {
        self.tenant
    }

    /// Gives the port back.
    pub fn end(self) -> H
        ensures { result ≡ self.entry.hub }
    {
        let BellHub {
            hub,
            bells: _,
            bell,
            tenant: _,
        } = self;
        drop(bell);
        hub
    }

    /// Lets the bell of a session go that has ended, and keeps the connection's bell for one that was admitted.
    fn note<R: Wait>(&mut self, rt: &R, released: Option<SessionNo>, admitted: Option<SessionNo>)
        ensures { self.new ≡ self.old }
    {
        if let Some(session) = released {
            self.bells.remove(rt, session);
        }
        if let Some(session) = admitted {
            if let Some(bell) = self.bell.take() {
                self.bells.put(rt, session, bell);
            }
        }
    }
}

impl<'a, H: HubPort> HubPort for BellHub<'a, H> {
    ghost port = { λ b. H.port b.hub };

    /// Beside what every port says, the tenant is noted of whom a session is asked for.
    fn ask<R: Wait>(&mut self, rt: &R, c: HubCommand) -> Result<HubReply, HubFault>
        ensures asks { Asks (H.port self.old.hub) (H.port self.new.hub) c result }
        ensures tenant { self.new.tenant ≡ tenant_after self.old.tenant c }
    {
        let released = released_by(&c);
        self.tenant = tenant_after(self.tenant, &c);
        let answer = self.hub.ask(rt, c);
        self.note(rt, released, admitted_by(&answer));
        answer
    }
}
