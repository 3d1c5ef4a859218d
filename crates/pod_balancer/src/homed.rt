//! Where a session stands.

use proxy_outside::{PodNo, SessionNo};

/// A session of a tenant, with the pod on which it stands.
#[derive(Clone, Copy, Debug, PartialEq, Eq)]
pub struct Homed {
    pub session: SessionNo,
    pub pod: PodNo,
}
