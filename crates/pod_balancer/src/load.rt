//! What stands on a pod.

ghost use Rattle.std.specs.Prelude.{◌≡◌};
ghost use Rattle.pod_balancer.specs.Picks.{leads};

use proxy_outside::PodNo;

/// A pod of a tenant, with the number of sessions on it.
#[derive(Clone, Copy, Debug, PartialEq, Eq)]
pub struct Load {
    pub pod: PodNo,
    /// Whether the pod takes sessions; else it is draining.
    pub running: bool,
    pub sessions: u32,
}

impl Load {
    /// Whether it stands before the other, or beside it: fewer sessions, or as many and no higher number.
    pub(crate) fn leads(&self, other: &Load) -> bool
        ensures { result ≡ leads self.now other.now }
    {
        self.sessions < other.sessions
            || (self.sessions == other.sessions && self.pod.0 <= other.pod.0)
    }
}
