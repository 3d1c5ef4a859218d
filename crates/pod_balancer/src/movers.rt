//! The sessions that move.

ghost use Rattle.std.specs.Prelude.{◌≡◌, ◌-◌, ◌==◌, ◌++◌, nat_lt, not, is_some, filter, IfOk, OnOk};
ghost use Rattle.std.specs.BTreeMap as tree;
ghost use Rattle.proxy_outside.specs.declared.identity.PodNo.{PodNo};
ghost use Rattle.pod_balancer.specs.Orders.{by_number};
ghost use Rattle.pod_balancer.specs.Plans.{one, rank, movers, IsRising};
ghost use Rattle.pod_balancer.specs.Pods.{HasDistinctPods};
ghost use Rattle.pod_balancer.specs.Movers.{above, left, HasExcess};

use crate::homed::Homed;
use crate::load::Load;
use pgw_frames::NoMemory;
use proxy_outside::PodNo;
use std::alloc::{AllocError, Global};
use std::collections::BTreeMap;

/// How many sessions each running pod has above the cap. Other pods have no entry.
type Excess = BTreeMap<PodNo, u64>;

fn entry_of(load: &Load, cap: u64) -> (PodNo, u64)
    ensures { result ≡ (load.now.pod, above cap load.now) }
{
    (load.pod, u64::from(load.sessions).saturating_sub(cap))
}

fn excesses(alloc: Global, loads: &[Load], cap: u64) -> Result<Excess, AllocError>
    requires { HasDistinctPods loads.now }
    ensures { IfOk result (HasExcess cap loads.now) }
{
    loads
        .iter()
        .filter(|load| load.running)
        .map(|load| entry_of(load, cap))
        .collect(alloc)
}

/// Whether the pod doesn't run, or isn't listed.
fn strands(excess: &Excess, pod: PodNo) -> bool
    ensures { result ≡ not (is_some (tree.get by_number excess.now pod)) }
{
    !excess.contains_key(&pod)
}

/// The sessions whose pod doesn't run or isn't listed, in their order.
fn stranded(alloc: Global, excess: &Excess, homes: &[Homed]) -> Result<Vec<Homed>, NoMemory>
    ensures { IfOk result (λ v. v.items ≡ filter (λ h. not (is_some (tree.get by_number excess.now h.pod))) homes.now) }
{
    let homes = homes
        .iter()
        .filter(|home| strands(excess, home.pod))
        .copied()
        .collect(alloc)?;
    Ok(homes)
}

/// Takes one off what is left above the cap. False where nothing is.
fn take_one(excess: &mut Excess, pod: PodNo) -> bool
    ensures value { result ≡ nat_lt 0 (left excess.old pod) }
    ensures left { (p : PodNo) → left excess.new p ≡ left excess.old p - one (pod.0 == p.0) }
{
    let Some(left) = excess.get_mut(&pod) else {
        return false;
    };
    let has_one = *left > 0;
    *left = left.saturating_sub(1);
    has_one
}

/// Adds the sessions with the lowest numbers, as many of each pod as it has above the cap, in the order
/// of the sessions.
fn add_surplus(movers: &mut Vec<Homed>, mut excess: Excess, homes: &[Homed]) -> Result<(), NoMemory>
    requires { IsRising homes.now }
    ensures { OnOk result (movers.new.items ≡ movers.old.items ++ filter (λ h. nat_lt (rank homes.now h) (left excess h.pod)) homes.now) }
{
    for home in homes {
        if take_one(&mut excess, home.pod) {
            movers.push(*home)?;
        }
    }
    Ok(())
}

/// The sessions that move: those whose pod doesn't run, and then those that a pod has above the cap.
pub(crate) fn movers_of(
    alloc: Global,
    loads: &[Load],
    homes: &[Homed],
    cap: u64,
) -> Result<Vec<Homed>, NoMemory>
    requires apart { HasDistinctPods loads.now }
    requires rising { IsRising homes.now }
    ensures { IfOk result (λ v. v.items ≡ movers cap loads.now homes.now) }
{
    let excess = excesses(alloc, loads, cap)?;
    let mut movers = stranded(alloc, &excess, homes)?;
    add_surplus(&mut movers, excess, homes)?;
    Ok(movers)
}
