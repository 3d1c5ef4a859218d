//! To which pod a session goes.

ghost use Rattle.std.specs.Prelude.{◌≡◌, ◌≢◌, None, map, find, option_map, IfOk, OnOk, OnErr};
ghost use Rattle.std.specs.FinMap as table;
ghost use Rattle.proxy_hub.specs.States.{State};
ghost use Rattle.proxy_hub.specs.Steps.{is_tried, untried, is_of, place_of, placed, picked, heading, plan_for};
ghost use Rattle.proxy_hub.specs.Loads.{load_in, put_back};
ghost use Rattle.proxy_hub.specs.Hubs.{StandsFor, Keeps, GivesReply, Goes};
ghost use Rattle.proxy_hub.specs.declared.command.HubCommand.TheVariants as command;

use crate::admission::is_running;
use crate::hub::Hub;
use crate::reply::{HubReply, Refusal};
use pgw_frames::NoMemory;
use pod_balancer::{Load, Moves, pick, plan};
use proxy_outside::{Place, PodNo, SessionNo, TenantId};
use session_roster::Roster;
use std::alloc::Global;
use tenant_directory::Pod;

/// Whether this pod was tried.
fn is_tried(tried: Option<PodNo>, pod: &Pod) -> bool
    ensures { result ≡ is_tried tried pod.now }
{
    match tried {
        Some(number) => pod.place.pod == number,
        None => false,
    }
}

/// Where the pod of this number is.
fn place_of(pods: &[Pod], number: PodNo) -> Option<Place>
    ensures { result ≡ place_of pods.now number }
{
    let pod = pods.iter().find(|pod| pod.place.pod == number)?;
    Some(pod.place)
}

/// Where the pod of this number is, if there is one.
fn placed(pods: &[Pod], number: Option<PodNo>) -> Option<Place>
    ensures { result ≡ placed pods.now number }
{
    match number {
        Some(number) => place_of(pods, number),
        None => None,
    }
}

fn picked(place: Option<Place>) -> HubReply
    ensures { result ≡ picked place }
{
    match place {
        Some(place) => HubReply::Picked(place),
        None => HubReply::No(Refusal::NoPod),
    }
}

fn heading(place: Option<Place>) -> HubReply
    ensures { result ≡ heading place }
{
    match place {
        Some(place) => HubReply::MoveTo(place),
        None => HubReply::Stay,
    }
}

/// The pod to which a session moves, if it does.
fn destination(moves: &Moves, session: SessionNo) -> Option<PodNo>
    ensures { result ≡ option_map (λ m. m.to) (find (is_of session) moves.now) }
{
    let found = moves.as_slice().iter().find(|m| m.session == session)?;
    Some(found.to)
}

/// A pod with the sessions that stand at it.
fn load(roster: &Roster, tenant: TenantId, pod: &Pod) -> Load
    ensures { result ≡ load_in roster.now tenant pod.now }
{
    Load {
        pod: pod.place.pod,
        running: is_running(pod.state),
        sessions: roster.count(tenant, pod.place.pod),
    }
}

/// All pods of a tenant with the sessions that stand at them.
fn loads(
    alloc: Global,
    roster: &Roster,
    tenant: TenantId,
    pods: &[Pod],
) -> Result<Vec<Load>, NoMemory>
    ensures { IfOk result (λ v. v.items ≡ map (load_in roster.now tenant) pods.now) }
{
    let mut loads = Vec::new(alloc);
    for pod in pods {
        loads.push(load(roster, tenant, pod))?;
    }
    Ok(loads)
}

/// The same of the pods that were not tried.
fn untried_loads(
    alloc: Global,
    roster: &Roster,
    tenant: TenantId,
    pods: &[Pod],
    first: Option<PodNo>,
    second: Option<PodNo>,
) -> Result<Vec<Load>, NoMemory>
    ensures { IfOk result (λ v. v.items ≡ map (load_in roster.now tenant) (untried first second pods.now)) }
{
    let mut loads = Vec::new(alloc);
    for pod in pods {
        if !(is_tried(first, pod) || is_tried(second, pod)) {
            loads.push(load(roster, tenant, pod))?;
        }
    }
    Ok(loads)
}

impl Hub {
    /// The pod for a session of this tenant, and not one of these two.
    pub(crate) fn pick(
        &self,
        tenant: TenantId,
        first: Option<PodNo>,
        second: Option<PodNo>,
    ) -> Result<HubReply, NoMemory>
        ensures { IfOk result (GivesReply self.now (command.Pick tenant first second)) }
    {
        let Some(pods) = self.directory.pods(tenant) else {
            return Ok(HubReply::No(Refusal::NoTenant));
        };
        let loads = untried_loads(self.alloc, &self.roster, tenant, pods, first, second)?;
        let number = pick(loads.as_slice());
        Ok(picked(placed(pods, number)))
    }

    /// The session stands at this place now.
    pub(crate) fn assign(&mut self, session: SessionNo, place: Place) -> Result<HubReply, NoMemory>
        ensures reply { IfOk result (GivesReply self.old (command.Assign session place)) }
        ensures state { OnOk result (Goes self.old self.new (command.Assign session place)) }
        ensures err { OnErr result (Keeps self.old self.new) }
    {
        let Some(tenant) = self.roster.tenant(session) else {
            return Ok(HubReply::NoSession);
        };
        let before = self.directory.home(session);
        self.directory.settle(session, tenant, place)?;
        if let Err(e) = self.roster.settle(session, place.pod) {
            self.put_back(session, tenant, before);
            return Err(e);
        }
        Ok(HubReply::Done)
    }

    /// Gives a session that has a home the one that it had before.
    fn put_back(&mut self, session: SessionNo, tenant: TenantId, before: Option<Place>)
        requires { table.get self.old.directory.homes session ≢ None }
        ensures rows { self.new.directory.rows ≡ self.old.directory.rows }
        ensures homes { self.new.directory.homes ≡ put_back self.old.directory.homes session tenant before }
        ensures kept { self.new ≡ record self.old { directory = self.new.directory } }
    {
        match before {
            // The session has a home, so that no memory is taken.
            Some(place) => {
                let _ = self.directory.settle(session, tenant, place);
            }
            None => self.directory.leave(session),
        }
    }

    /// All moves of a tenant.
    fn plan_of(&self, tenant: TenantId) -> Result<Moves, NoMemory>
        ensures { IfOk result (λ moves. (s : State) → StandsFor self.now s → moves ≡ plan_for s tenant) }
    {
        let Some(pods) = self.directory.pods(tenant) else {
            return Ok(Moves::from_vec(Vec::new(self.alloc)));
        };
        let loads = loads(self.alloc, &self.roster, tenant, pods)?;
        let homes = self.roster.homes(self.alloc, tenant)?;
        plan(self.alloc, loads.as_slice(), homes.as_slice())
    }

    pub(crate) fn plan(&self, tenant: TenantId) -> Result<HubReply, NoMemory>
        ensures { IfOk result (GivesReply self.now (command.Plan tenant)) }
    {
        Ok(HubReply::Moves(self.plan_of(tenant)?))
    }

    /// Where a session is to move.
    pub(crate) fn target(&self, session: SessionNo) -> Result<HubReply, NoMemory>
        ensures { IfOk result (GivesReply self.now (command.Target session)) }
    {
        let Some(tenant) = self.roster.tenant(session) else {
            return Ok(HubReply::NoSession);
        };
        let moves = self.plan_of(tenant)?;
        let Some(to) = destination(&moves, session) else {
            return Ok(HubReply::Stay);
        };
        let Some(pods) = self.directory.pods(tenant) else {
            return Ok(HubReply::Stay);
        };
        Ok(heading(place_of(pods, to)))
    }
}
