//! Hubs of one tenant.

use pgw_frames::NoMemory;
use proxy_hub::HubCommand;
use proxy_outside::{Addr, Place, PodNo, TenantId};
use staged_hub::{StagedCommand, StagedHub, Step};
use std::alloc::Global;
use std::test::*;
use tenant_directory::{Pod, PodState, TenantRow};

pub(crate) const CLIENT: Addr = Addr::V4(0x0a01_0203);

pub(crate) const TENANT: TenantId = TenantId(7);

/// The tenant's pods from an ask on: how many there are, and how many of them, from the first on, are draining.
#[derive(Clone, Copy)]
pub(crate) struct Pods {
    pub before: u64,
    pub count: u32,
    pub draining: u32,
}

pub(crate) fn row(alloc: Global, version: u64, pods: Pods) -> Result<TenantRow, Fail> {
    let mut all = Vec::new(alloc);
    for pod in 1..=pods.count {
        all.push(Pod {
            place: Place {
                pod: PodNo(pod),
                addr: Addr::V4(pod),
                port: 26_257,
            },
            state: if pod <= pods.draining {
                PodState::Draining
            } else {
                PodState::Running
            },
        })?;
    }
    Ok(TenantRow::of(alloc, TENANT, version, all.as_slice())?)
}

/// A hub that is told of these pods, a version each.
pub(crate) fn hub_of(alloc: Global, rows: &[Pods]) -> Result<StagedHub, Fail> {
    let mut staged = Vec::new(alloc);
    let mut version = 0u64;
    for pods in rows {
        version = version.saturating_add(1);
        let row = row(alloc, version, *pods)?;
        staged.push(StagedCommand {
            before: pods.before,
            command: HubCommand::Update(row),
        })?;
    }
    Ok(StagedHub::make(alloc, staged)?)
}

/// How often a pod was asked for, and how many failed logins were reported.
pub(crate) fn count_asks(steps: &[Step]) -> (usize, usize) {
    let picks = steps
        .iter()
        .filter(|s| match s.command {
            HubCommand::Pick { .. } => true,
            _ => false,
        })
        .count();
    let failures = steps
        .iter()
        .filter(|s| match s.command {
            HubCommand::Report { ok, .. } => !ok,
            _ => false,
        })
        .count();
    (picks, failures)
}
