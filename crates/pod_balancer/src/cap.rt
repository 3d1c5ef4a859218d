//! The most sessions that a running pod keeps.

ghost use Rattle.std.specs.Prelude.{◌≡◌, ◌↔◌, [], IsNone, IfSome, count_by};
ghost use Rattle.pod_balancer.specs.Picks.{running};
ghost use Rattle.pod_balancer.specs.Plans.{cap_of};

use crate::homed::Homed;
use crate::load::Load;

/// How many pods run.
fn running_len(loads: &[Load]) -> usize
    ensures { result ≡ count_by (λ l. l.running) loads.now }
{
    loads.iter().filter(|load| load.running).count()
}

/// The most sessions that a running pod keeps: all sessions over the running pods, rounded up. `None`
/// where none runs.
pub(crate) fn cap_of(loads: &[Load], homes: &[Homed]) -> Option<u64>
    ensures value { IfSome result (λ cap. cap ≡ cap_of loads.now homes.now) }
    ensures none { IsNone result ↔ (running loads.now ≡ []) }
{
    let running = running_len(loads);
    if running == 0 {
        return None;
    }
    Some(homes.len().div_ceil(running) as u64)
}
