//! The live sessions, by their numbers, tenants and pods.

ghost use Rattle.std.specs.Prelude.{◌≡◌, ◌↔◌, ◌^◌, ◌-◌, ◌==◌, [], Some, None, option_map, if◌then◌else◌, IfOk, OnOk, OnErr, IsOk, MatchOption};
ghost use Rattle.std.specs.Option.{option_flatten};
ghost use Rattle.std.specs.BTreeMap as tree;
ghost use Rattle.pod_balancer.specs.Plans.{IsRising, sessions_on};
ghost use Rattle.session_roster.specs.declared.member.Member.{Member as Entry};
ghost use Rattle.session_roster.specs.Rows.{members as orders, is_member};
ghost use Rattle.session_roster.specs.Rosters.{Roll, session_of, settled, without, count_of, homes_of, newcomer, enrolled};

use crate::counts::Counts;
use crate::member::{Member, Spot};
use pgw_frames::NoMemory;
use pod_balancer::Homed;
use proxy_outside::{PodNo, SessionNo, TenantId};
use std::alloc::Global;
use std::collections::BTreeMap;
use std::marker::Model;

/// The sessions that were enrolled and not removed. Contracts see them as a list, in the order of their
/// numbers, with the number that was given last.
#[derive(Drop)]
pub struct Roster {
    tenants: BTreeMap<SessionNo, TenantId>,
    members: BTreeMap<Member, Option<PodNo>>,
    counts: Counts,
    last: u32,
}

impl Model for Roster {
    ghost use Rattle.session_roster.specs.Rosters.{Roll};
    ghost use Rattle.session_roster.specs.Rows.{roll_of, IsWhole};

    ghost Value = { Roll };

    ghost view = { λ r. roll_of (record { tenants = r.tenants; members = r.members; counts = r.counts; last = r.last }) };

    ghost invariant = { λ r. IsWhole (record { tenants = r.tenants; members = r.members; counts = r.counts; last = r.last }) };
}

impl Roster {
    /// No session is live, and no number was given. It takes no memory.
    pub fn new(alloc: Global) -> Roster
        ensures { result ≡ record { live = []; last = 0 } }
    {
        Roster {
            tenants: BTreeMap::new(alloc),
            members: BTreeMap::new(alloc),
            counts: Counts::new(alloc),
            last: 0,
        }
    }

    /// The tenant of a live session. It takes no memory.
    pub fn tenant(&self, session: SessionNo) -> Option<TenantId>
        ensures { result ≡ option_map (λ l. l.tenant) (session_of session self.now.live) }
    {
        self.tenants.get(&session).copied()
    }

    /// How many sessions of a tenant stand at a pod. It takes no memory.
    pub fn count(&self, tenant: TenantId, pod: PodNo) -> u32
        ensures value { result ≡ count_of tenant pod self.now.live }
        ensures homes { result ≡ sessions_on pod (homes_of tenant self.now.live) }
    {
        self.counts.at(Spot { tenant, pod })
    }

    /// The sessions of a tenant that stand at a pod, in the order of their numbers.
    pub fn homes(&self, alloc: Global, tenant: TenantId) -> Result<Vec<Homed>, NoMemory>
        ensures ok { IfOk result (λ hs. hs.items ≡ homes_of tenant self.now.live) }
        ensures rising { IfOk result (λ hs. IsRising hs.items) }
    {
        let first = Member {
            tenant,
            session: SessionNo(0),
        };
        let last = Member {
            tenant,
            session: SessionNo(u32::MAX),
        };
        let mut homes = Vec::new(alloc);
        for (member, pod) in self.members.range(first..=last) {
            if let Some(pod) = pod {
                homes.push(Homed {
                    session: member.session,
                    pod: *pod,
                })?;
            }
        }
        Ok(homes)
    }

    /// A session of this tenant is live, and stands nowhere yet. It gets the next number, which is told;
    /// `None` where all were given, and then nothing changes. An `Err` changes nothing.
    pub fn enrol(&mut self, tenant: TenantId) -> Result<Option<SessionNo>, NoMemory>
        ensures number { IfOk result (λ n. n ≡ (if self.old.last == 2 ^ 32 - 1 then None else Some (newcomer tenant self.old).session)) }
        ensures ok { OnOk result (self.new ≡ (if self.old.last == 2 ^ 32 - 1 then self.old else enrolled tenant self.old)) }
        ensures err { OnErr result (self.new ≡ self.old) }
    {
        let Some(number) = self.last.checked_add(1) else {
            return Ok(None);
        };
        let session = SessionNo(number);
        self.members.insert(Member { tenant, session }, None)?;
        if let Err(e) = self.tenants.insert(session, tenant) {
            self.members.remove(&Member { tenant, session });
            return Err(NoMemory::from(e));
        }
        self.last = number;
        Ok(Some(session))
    }

    /// A live session stands at this pod, and at no other. An `Err` changes nothing.
    pub fn settle(&mut self, session: SessionNo, pod: PodNo) -> Result<(), NoMemory>
        ensures ok { OnOk result (self.new ≡ record self.old { live = settled session pod self.old.live }) }
        ensures err { OnErr result (self.new ≡ self.old) }
    {
        let Some(tenant) = self.tenant(session) else {
            return Ok(());
        };
        let member = Member { tenant, session };
        let before = self.members.get(&member).copied().flatten();
        if before == Some(pod) {
            return Ok(());
        }
        self.counts.add(Spot { tenant, pod })?;
        set_pod(&mut self.members, member, pod);
        if let Some(pod) = before {
            self.counts.take(Spot { tenant, pod });
        }
        Ok(())
    }

    /// A session is live no more. It takes no memory.
    pub fn remove(&mut self, session: SessionNo)
        ensures { self.new ≡ record self.old { live = without session self.old.live } }
    {
        let Some(tenant) = self.tenants.remove(&session) else {
            return;
        };
        let pod = self.members.remove(&Member { tenant, session }).flatten();
        if let Some(pod) = pod {
            self.counts.take(Spot { tenant, pod });
        }
    }
}

/// Writes a pod at a member, if it is there.
fn set_pod(members: &mut BTreeMap<Member, Option<PodNo>>, member: Member, pod: PodNo)
    ensures { (q : Entry) → tree.get orders members.new q ≡ (if is_member member q then option_map (λ old. Some pod) (tree.get orders members.old q) else tree.get orders members.old q) }
{
    if let Some(home) = members.get_mut(&member) {
        *home = Some(pod);
    }
}
