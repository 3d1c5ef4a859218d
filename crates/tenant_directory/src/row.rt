//! Rows of the directory.

ghost use Rattle.std.specs.Prelude.{◌≡◌, ◌≢◌, ◌<◌, ◌≤◌, ◌↔◌, ℕ, length, IfOk, OnOk, IsErrOf};
ghost use Rattle.proxy_outside.specs.declared.identity.PodNo.{PodNo};
ghost use Rattle.tenant_directory.specs.Pods.{IsFit, IsFirstTwice, counted};

use crate::fault::RowFault;
use crate::pod::Pod;
use crate::twice::first_twice;
use pgw_frames::NoMemory;
use proxy_outside::TenantId;
use std::alloc::Global;
use std::marker::Model;

/// How many pods a tenant may have.
pub const MOST_PODS: usize = 1_000;

/// All pods of a tenant, 1,000 at most and with numbers that differ, as they were at this version.
#[derive(Debug, Drop)]
pub struct TenantRow {
    tenant: TenantId,
    version: u64,
    pods: Vec<Pod>,
}

impl Model for TenantRow {
    ghost use Rattle.tenant_directory.specs.Rows.{TenantPods};
    ghost use Rattle.tenant_directory.specs.Pods.{IsFit};

    ghost Value = { TenantPods };

    ghost view = { λ r. record { tenant = r.tenant; version = r.version; pods = r.pods.items } };

    ghost invariant = { λ r. IsFit r.pods.items };
}

impl TenantRow {
    /// A row of these pods, which are copied. `TooMany` stands before `TwicePod`.
    pub fn of(
        alloc: Global,
        tenant: TenantId,
        version: u64,
        pods: &[Pod],
    ) -> Result<TenantRow, RowFault>
        ensures ok { IfOk result (λ row. row ≡ record { tenant = tenant; version = version; pods = pods.now }) }
        ensures accepted { OnOk result (IsFit pods.now) }
        ensures too_many { (n : ℕ) → IsErrOf result (RowFault.TooMany n) ↔ ((1000 < length pods.now) × (n ≡ counted (length pods.now))) }
        ensures twice { (n : PodNo) → result ≢ Err RowFault.NoMemory → IsErrOf result (RowFault.TwicePod n) ↔ ((length pods.now ≤ 1000) × IsFirstTwice pods.now n) }
    {
        if pods.len() > MOST_PODS {
            let count = u32::try_from(pods.len()).unwrap_or(u32::MAX);
            return Err(RowFault::TooMany(count));
        }
        if let Some(pod) = first_twice(alloc, pods)? {
            return Err(RowFault::TwicePod(pod));
        }
        Ok(TenantRow {
            tenant,
            version,
            pods: Vec::from_slice(alloc, pods)?,
        })
    }

    /// A copy of the row.
    pub fn copy(&self) -> Result<TenantRow, NoMemory>
        ensures { IfOk result (λ row. row ≡ self.now) }
    {
        Ok(TenantRow {
            tenant: self.tenant,
            version: self.version,
            pods: Vec::from_slice(*self.pods.allocator(), self.pods.as_slice())?,
        })
    }

    pub fn tenant(&self) -> TenantId
        ensures { result ≡ self.now.tenant }
    {
        self.tenant
    }

    pub fn version(&self) -> u64
        ensures { result ≡ self.now.version }
    {
        self.version
    }

    pub fn pods(&self) -> &[Pod]
        ensures value { result.now ≡ self.now.pods }
        ensures fit { IsFit self.now.pods }
    {
        self.pods.as_slice()
    }
}
