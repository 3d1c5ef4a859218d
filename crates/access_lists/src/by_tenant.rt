//! The allow lists, by tenant.

ghost use Rattle.std.specs.Prelude.{◌≡◌, List, [], ◌∷◌, ◌++◌, filter, IfOk, OnOk, OnErr};
ghost use Rattle.access_lists.specs.declared.lists.Allow.{Allow as Entry};
ghost use Rattle.access_lists.specs.Verdicts.{is_of, is_barred};
ghost use Rattle.access_lists.specs.Indexes.{Indexes};

use crate::allow_list::AllowList;
use crate::lists::Allow;
use crate::net::Net;
use pgw_frames::NoMemory;
use proxy_outside::{Addr, TenantId};
use std::alloc::Global;
use std::collections::BTreeMap;

/// The list of each tenant that has one. Contracts tie it by a relation to all entries, in the order in
/// which they were added.
#[derive(Debug, Drop)]
pub(crate) struct ByTenant {
    lists: BTreeMap<TenantId, AllowList>,
}

impl ByTenant {
    /// No tenant has a list. It takes no memory.
    pub fn new(alloc: Global) -> ByTenant
        ensures { Indexes result [] }
    {
        ByTenant {
            lists: BTreeMap::new(alloc),
        }
    }

    /// Adds a network to a tenant's list, which it makes where there is none yet. An `Err` changes
    /// nothing.
    pub fn add(&mut self, alloc: Global, tenant: TenantId, net: Option<Net>) -> Result<(), NoMemory>
        ensures ok { OnOk result ((allows : List Entry) → Indexes self.old allows → Indexes self.new (allows ++ record { tenant = tenant; net = net } ∷ [])) }
        ensures err { OnErr result ((allows : List Entry) → Indexes self.old allows → Indexes self.new allows) }
    {
        if let Some(list) = self.lists.get_mut(&tenant) {
            return list.add(net);
        }
        self.lists.insert(tenant, AllowList::of(alloc, net)?)?;
        Ok(())
    }

    /// The lists of these entries.
    pub fn of(alloc: Global, allows: &[Allow]) -> Result<ByTenant, NoMemory>
        ensures { IfOk result (λ b. Indexes b allows.now) }
    {
        let mut lists = ByTenant::new(alloc);
        for allow in allows {
            lists.add(alloc, allow.tenant, allow.net)?;
        }
        Ok(lists)
    }

    /// Whether the tenant has a list that leaves the address out.
    pub fn bars(&self, addr: &Addr, tenant: TenantId) -> bool
        ensures { (allows : List Entry) → Indexes self.now allows → result ≡ is_barred addr.now (filter (is_of tenant) allows) }
    {
        match self.lists.get(&tenant) {
            Some(list) => !list.has(addr),
            None => false,
        }
    }
}
