//! The tenants whose plans are asked for.

ghost use Rattle.std.specs.Prelude.{◌≡◌, [], false, not, IfOk, OnOk, OnErr, if◌then◌else◌};
ghost use Rattle.std.specs.BTreeMap.{is_at};
ghost use Rattle.std.specs.List.{list_any};
ghost use Rattle.std.specs.List.Sorted.{IsStrictlySortedBy};
ghost use Rattle.proxy_outside.specs.Orders.{tenants};
ghost use Rattle.pod_drain.specs.Watching.{with_tenant, without_tenant};

use pgw_frames::NoMemory;
use proxy_outside::TenantId;
use std::alloc::Global;
use std::collections::BTreeSet;
use std::marker::Model;

/// The tenants that are watched, in the rising order of their numbers.
#[derive(Drop)]
pub struct Watch {
    tenants: BTreeSet<TenantId>,
}

impl Model for Watch {
    ghost use Rattle.std.specs.Prelude.{List};
    ghost use Rattle.proxy_outside.specs.declared.identity.TenantId.{TenantId};

    ghost Value = { List TenantId };

    ghost view = { λ w. w.tenants.keys };
}

impl Watch {
    /// Nobody is watched. It takes no memory.
    pub fn new(alloc: Global) -> Watch
        ensures { result ≡ [] }
    {
        Watch {
            tenants: BTreeSet::new(alloc),
        }
    }

    /// Those that are watched, in rising order.
    pub fn tenants(&self, alloc: Global) -> Result<Vec<TenantId>, NoMemory>
        ensures value { IfOk result (λ v. v.items ≡ self.now) }
        ensures rising { IsStrictlySortedBy tenants self.now }
    {
        let all = self.tenants.iter().copied().collect(alloc)?;
        Ok(all)
    }

    /// Watches a tenant, and says whether it wasn't watched before.
    pub(crate) fn add(&mut self, tenant: TenantId) -> Result<bool, NoMemory>
        ensures ok { OnOk result (self.new ≡ with_tenant tenant self.old) }
        ensures added { IfOk result (λ added. added ≡ not (list_any (is_at (tenants tenant)) self.old)) }
        ensures kept { IfOk result (λ added. added ≡ false → self.new ≡ self.old) }
        ensures err { OnErr result (self.new ≡ self.old) }
    {
        let added = self.tenants.insert(tenant)?;
        Ok(added)
    }

    pub(crate) fn remove(&mut self, tenant: TenantId)
        ensures { self.new ≡ without_tenant tenant self.old }
    {
        self.tenants.remove(&tenant);
    }

    /// Forgets a tenant that wasn't watched before.
    pub(crate) fn undo(&mut self, tenant: TenantId, added: bool)
        ensures { self.new ≡ (if added then without_tenant tenant self.old else self.old) }
    {
        if added {
            self.remove(tenant);
        }
    }
}
