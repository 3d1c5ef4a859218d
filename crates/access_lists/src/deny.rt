//! Entries that keep clients out.

ghost use Rattle.std.specs.Prelude.{◌≡◌, IfOk};
ghost use Rattle.access_lists.specs.Verdicts.{names, is_live, matches};

use crate::net::Net;
use pgw_frames::{NoMemory, Text};
use proxy_outside::{Addr, TenantId};
use std::alloc::Global;

/// Whom an entry names.
#[derive(Clone, Copy, Debug, PartialEq, Eq)]
pub enum Who {
    /// Each client whose address is in the network.
    Network(Net),
    /// Each client of the tenant.
    Tenant(TenantId),
}

/// Keeps those out whom it names.
#[derive(Debug, Drop)]
pub struct Deny {
    pub who: Who,
    /// The moment, in seconds, from which on the entry is no more. With none it stands for good.
    pub until: Option<u64>,
    /// For the reader of the settings.
    pub reason: Text,
}

impl Who {
    fn names(&self, addr: &Addr, tenant: TenantId) -> bool
        ensures { result ≡ names self.now addr.now tenant }
    {
        match self {
            Who::Network(net) => net.has(addr),
            Who::Tenant(named) => *named == tenant,
        }
    }
}

impl Deny {
    fn is_live(&self, now: u64) -> bool
        ensures { result ≡ is_live self.now.until now }
    {
        match self.until {
            Some(until) => now < until,
            None => true,
        }
    }

    pub(crate) fn matches(&self, addr: &Addr, tenant: TenantId, now: u64) -> bool
        ensures { result ≡ matches addr.now tenant now self.now }
    {
        self.is_live(now) && self.who.names(addr, tenant)
    }

    pub(crate) fn copy(&self, alloc: Global) -> Result<Deny, NoMemory>
        ensures { IfOk result (λ d. d ≡ self.now) }
    {
        Ok(Deny {
            who: self.who,
            until: self.until,
            reason: Text::of(alloc, self.reason.as_str())?,
        })
    }
}
