//! The pods of a tenant.

use proxy_outside::Place;

/// Whether new sessions may go to a pod.
#[derive(Clone, Copy, Debug, PartialEq, Eq)]
pub enum PodState {
    Running,
    /// Its sessions are to move to other pods.
    Draining,
}

/// Where a pod is, and its state.
#[derive(Clone, Copy, Debug, PartialEq, Eq)]
pub struct Pod {
    pub place: Place,
    pub state: PodState,
}
