//! The running pods, the least loaded first.

ghost use Rattle.std.specs.Prelude.{◌≡◌, IfOk};
ghost use Rattle.pod_balancer.specs.Pods.{HasDistinctPods};
ghost use Rattle.pod_balancer.specs.Places.{kept, Holds, FillsFirst};

use crate::load::Load;
use pgw_frames::NoMemory;
use proxy_outside::PodNo;
use std::alloc::{AllocError, Global};
use std::collections::BTreeSet;

/// A running pod, with the sessions that it keeps and those that came to it. The order is that of the
/// set: the fewest sessions first, of as many the lowest number.
#[derive(Clone, Copy, Debug, PartialEq, Eq, PartialOrd, Ord)]
pub(crate) struct Spot {
    pub sessions: u64,
    pub pod: PodNo,
}

fn spot_of(load: &Load, cap: u64) -> Spot
    ensures { result ≡ record { sessions = kept cap load.now; pod = load.now.pod } }
{
    Spot {
        sessions: u64::from(load.sessions).min(cap),
        pod: load.pod,
    }
}

/// The running pods with what they keep: their sessions, as many as the cap at most.
pub(crate) fn spots(alloc: Global, loads: &[Load], cap: u64) -> Result<BTreeSet<Spot>, AllocError>
    requires { HasDistinctPods loads.now }
    ensures { IfOk result (Holds cap loads.now) }
{
    loads
        .iter()
        .filter(|load| load.running)
        .map(|load| spot_of(load, cap))
        .collect(alloc)
}

/// Gives the first spot one session more, and tells its pod. `None` where there is no spot. A spot to
/// which a session goes is below the cap, so the count stops at no end.
pub(crate) fn fill_first(spots: &mut BTreeSet<Spot>) -> Result<Option<PodNo>, NoMemory>
    ensures { IfOk result (λ to. FillsFirst spots.old spots.new to) }
{
    let Some(spot) = spots.pop_first() else {
        return Ok(None);
    };
    spots.insert(Spot {
        sessions: spot.sessions.saturating_add(1),
        pod: spot.pod,
    })?;
    Ok(Some(spot.pod))
}
