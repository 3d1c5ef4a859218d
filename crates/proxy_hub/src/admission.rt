//! Who gets a session.

ghost use Rattle.std.specs.Prelude.{◌≡◌, None, IfOk, OnOk, OnErr};
ghost use Rattle.proxy_hub.specs.States.{State};
ghost use Rattle.proxy_hub.specs.Steps.{is_running, runs, by_pods, refusal_by};
ghost use Rattle.tenant_directory.specs.Newest.{pods_of};
ghost use Rattle.proxy_hub.specs.Hubs.{StandsFor, Keeps, GivesReply, Goes};
ghost use Rattle.proxy_hub.specs.declared.command.HubCommand.TheVariants as command;

use crate::hub::Hub;
use crate::reply::{HubReply, Refusal};
use access_lists::Verdict;
use login_throttle::Allowance;
use pgw_frames::NoMemory;
use proxy_outside::{Addr, TenantId};
use tenant_directory::{Pod, PodState};

pub(crate) fn is_running(state: PodState) -> bool
    ensures { result ≡ is_running state }
{
    match state {
        PodState::Running => true,
        PodState::Draining => false,
    }
}

/// Whether some pod runs.
fn runs(pods: &[Pod]) -> bool
    ensures { result ≡ runs pods.now }
{
    pods.iter().any(|pod| is_running(pod.state))
}

impl Hub {
    /// The first of what stands against a session of this tenant, for a client of this address, but for the
    /// numbers.
    fn refusal(&self, addr: &Addr, tenant: TenantId, now: u64) -> Option<Refusal>
        ensures { (s : State) → StandsFor self.now s → result ≡ refusal_by s addr.now tenant now None }
    {
        match self.lists.judge(addr, tenant, now) {
            Verdict::Denied(place) => Some(Refusal::Denied(place)),
            Verdict::NotAllowed => Some(Refusal::NotAllowed),
            Verdict::Pass => match self.throttle.check(addr, tenant, now) {
                Allowance::Until(moment) => Some(Refusal::Throttled(moment)),
                Allowance::Go => self.shortage(tenant),
            },
        }
    }

    /// What the tenant lacks for a further session.
    fn shortage(&self, tenant: TenantId) -> Option<Refusal>
        ensures { (s : State) → StandsFor self.now s → result ≡ by_pods (pods_of s.rows tenant) None }
    {
        let Some(pods) = self.directory.pods(tenant) else {
            return Some(Refusal::NoTenant);
        };
        if runs(pods) {
            None
        } else {
            Some(Refusal::NoPod)
        }
    }

    /// Gives a session the next number, unless something stands against it.
    pub(crate) fn admit(
        &mut self,
        addr: &Addr,
        tenant: TenantId,
        now: u64,
    ) -> Result<HubReply, NoMemory>
        ensures reply { IfOk result (GivesReply self.old (command.Admit addr.now tenant now)) }
        ensures state { OnOk result (Goes self.old self.new (command.Admit addr.now tenant now)) }
        ensures err { OnErr result (Keeps self.old self.new) }
    {
        if let Some(why) = self.refusal(addr, tenant, now) {
            return Ok(HubReply::No(why));
        }
        match self.roster.enrol(tenant)? {
            Some(session) => Ok(HubReply::Admitted(session)),
            None => Ok(HubReply::No(Refusal::NoNumbers)),
        }
    }
}
