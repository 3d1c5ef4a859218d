//! By what a tenant's sessions and pods are found.

use proxy_outside::{PodNo, SessionNo, TenantId};

/// A session of a tenant. The order is that of the map.
#[derive(Clone, Copy, Debug, PartialEq, Eq, PartialOrd, Ord)]
pub(crate) struct Member {
    pub tenant: TenantId,
    pub session: SessionNo,
}

/// A pod of a tenant. The order is that of the map.
#[derive(Clone, Copy, Debug, PartialEq, Eq, PartialOrd, Ord)]
pub(crate) struct Spot {
    pub tenant: TenantId,
    pub pod: PodNo,
}
