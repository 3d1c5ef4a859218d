//! Which sessions move, and where to.

ghost use Rattle.std.specs.Prelude.{◌≡◌, IfOk};
ghost use Rattle.pod_balancer.specs.Plans.{plan_of, AreApart, IsRising, AreCounts};

use crate::assignment::assign;
use crate::cap::cap_of;
use crate::homed::Homed;
use crate::load::Load;
use crate::movers::movers_of;
use crate::moves::Moves;
use pgw_frames::NoMemory;
use std::alloc::Global;

/// The moves after which each session stands on a running pod, and no running pod has more than its
/// share of the sessions, rounded up. Where no pod runs there are none.
///
/// First those sessions move whose pod doesn't run or isn't listed. Then each running pod above its
/// share gives up its sessions with the lowest numbers. Each of the two in the order of the sessions.
/// Each goes to the pick at its moment, where it counts at once.
///
/// No two loads are of one pod, the sessions rise, and each load counts the sessions on its pod.
pub fn plan(alloc: Global, loads: &[Load], homes: &[Homed]) -> Result<Moves, NoMemory>
    requires apart { AreApart loads.now }
    requires rising { IsRising homes.now }
    requires counts { AreCounts loads.now homes.now }
    ensures { IfOk result (λ moves. moves ≡ plan_of loads.now homes.now) }
{
    let Some(cap) = cap_of(loads, homes) else {
        return Ok(Moves::from_vec(Vec::new(alloc)));
    };
    let movers = movers_of(alloc, loads, homes, cap)?;
    assign(alloc, loads, movers.as_slice(), cap)
}
