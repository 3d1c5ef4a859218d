//! By what logins are told apart.

use proxy_outside::{Addr, TenantId};

/// An address and a tenant. The order is that of the map.
#[derive(Clone, Copy, Debug, PartialEq, Eq, PartialOrd, Ord)]
pub(crate) struct Pair {
    pub tenant: TenantId,
    pub addr: Addr,
}
