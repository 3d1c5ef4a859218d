//! The deny entries and the allow lists, and their verdict.

ghost use Rattle.std.specs.Prelude.{◌≡◌, [], ◌∷◌, ◌++◌, position, OnOk, OnErr, IfOk};
ghost use Rattle.access_lists.specs.Verdicts.{Entries, matches, verdict};

use crate::by_tenant::ByTenant;
use crate::deny::Deny;
use crate::net::Net;
use crate::verdict::Verdict;
use pgw_frames::NoMemory;
use proxy_outside::{Addr, TenantId};
use std::alloc::Global;
use std::marker::Model;

/// One network of a tenant's allow list, or none, which makes the list alone.
#[derive(Clone, Copy, Debug, PartialEq, Eq)]
pub struct Allow {
    pub tenant: TenantId,
    pub net: Option<Net>,
}

/// Deny entries and allow entries, each in the order in which they were added.
#[derive(Debug, Drop)]
pub struct Lists {
    denies: Vec<Deny>,
    allows: Vec<Allow>,
    /// The allow entries once more, so that a verdict looks at one tenant's.
    by_tenant: ByTenant,
}

impl Model for Lists {
    ghost use Rattle.access_lists.specs.Verdicts.{Entries};
    ghost use Rattle.access_lists.specs.Indexes.{Indexes};

    ghost Value = { Entries };

    ghost view = { λ l. record { denies = l.denies.items; allows = l.allows.items } };

    ghost invariant = { λ l. Indexes l.by_tenant l.allows.items };
}

/// The place of the first entry that matches.
fn first_match(denies: &[Deny], addr: &Addr, tenant: TenantId, now: u64) -> Option<usize>
    ensures { result ≡ position (matches addr.now tenant now) denies.now }
{
    denies.iter().position(|d| d.matches(addr, tenant, now))
}

impl Lists {
    /// No entries: everyone passes. It takes no memory.
    pub fn new(alloc: Global) -> Lists
        ensures { result ≡ record { denies = []; allows = [] } }
    {
        Lists {
            denies: Vec::new(alloc),
            allows: Vec::new(alloc),
            by_tenant: ByTenant::new(alloc),
        }
    }

    /// Adds a deny entry behind the others. An `Err` changes nothing.
    pub fn add_deny(&mut self, d: Deny) -> Result<(), NoMemory>
        ensures ok { OnOk result (self.new ≡ record self.old { denies = self.old.denies ++ d ∷ [] }) }
        ensures err { OnErr result (self.new ≡ self.old) }
    {
        self.denies.push(d)?;
        Ok(())
    }

    /// Adds a network to a tenant's allow list, which it makes where there is none yet. With no
    /// network it only makes the list. An `Err` changes nothing.
    pub fn add_allow(&mut self, tenant: TenantId, net: Option<Net>) -> Result<(), NoMemory>
        ensures ok { OnOk result (self.new ≡ record self.old { allows = self.old.allows ++ record { tenant = tenant; net = net } ∷ [] }) }
        ensures err { OnErr result (self.new ≡ self.old) }
    {
        let alloc = *self.allows.allocator();
        self.allows.reserve(1)?;
        self.by_tenant.add(alloc, tenant, net)?;
        self.allows.push_reserved(Allow { tenant, net });
        Ok(())
    }

    /// The verdict on a client of this address and tenant, at this moment in seconds. It looks at the
    /// deny entries in their order, and of the allow entries at this tenant's alone. It takes no memory.
    pub fn judge(&self, addr: &Addr, tenant: TenantId, now: u64) -> Verdict
        ensures { result ≡ verdict self.now addr.now tenant now }
    {
        if let Some(place) = first_match(self.denies.as_slice(), addr, tenant, now) {
            return Verdict::Denied(u32::try_from(place).unwrap_or(u32::MAX));
        }
        if self.by_tenant.bars(addr, tenant) {
            return Verdict::NotAllowed;
        }
        Verdict::Pass
    }

    /// A copy of the entries.
    pub fn copy(&self) -> Result<Lists, NoMemory>
        ensures { IfOk result (λ l. l ≡ self.now) }
    {
        let alloc = *self.denies.allocator();
        let mut denies = Vec::with_capacity(alloc, self.denies.len())?;
        for d in &self.denies {
            denies.push(d.copy(alloc)?)?;
        }
        Ok(Lists {
            denies,
            allows: Vec::from_slice(alloc, self.allows.as_slice())?,
            by_tenant: ByTenant::of(alloc, self.allows.as_slice())?,
        })
    }
}
