//! The pod for a new session.

ghost use Rattle.std.specs.Prelude.{◌≡◌, ◌↔◌, [], IsNone, IfSome};
ghost use Rattle.pod_balancer.specs.Picks.{lighter, running, pick_of, IsLightest};

use crate::load::Load;
use proxy_outside::PodNo;

/// The lighter one of these two, where there is a first.
fn lighter(first: Option<Load>, load: Load) -> Load
    ensures { result ≡ lighter first load }
{
    match first {
        Some(lightest) if lightest.leads(&load) => lightest,
        _ => load,
    }
}

/// The running pod with the fewest sessions, of several the one with the lowest number. `None` exactly
/// where none runs. It takes no memory.
pub fn pick(loads: &[Load]) -> Option<PodNo>
    ensures value { result ≡ pick_of loads.now }
    ensures lightest { IfSome result (IsLightest loads.now) }
    ensures none { IsNone result ↔ (running loads.now ≡ []) }
{
    let mut lightest = None;
    for load in loads {
        if load.running {
            lightest = Some(lighter(lightest, *load));
        }
    }
    Some(lightest?.pod)
}
