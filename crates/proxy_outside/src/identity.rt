//! By what clients, tenants, pods and sessions are known.

/// The key that the proxy gives a client in place of its pod's: the body of BackendKeyData, and of a
/// CancelRequest.
#[derive(Clone, Copy, Debug, PartialEq, Eq)]
pub struct ClientKey {
    pub process: u32,
    pub secret: u32,
}

/// The number of a tenant.
#[derive(Clone, Copy, Debug, PartialEq, Eq, PartialOrd, Ord)]
pub struct TenantId(pub u32);

/// The number of a pod, which no other pod of its tenant has.
#[derive(Clone, Copy, Debug, PartialEq, Eq, PartialOrd, Ord)]
pub struct PodNo(pub u32);

/// The number of a session at the proxy.
#[derive(Clone, Copy, Debug, PartialEq, Eq, PartialOrd, Ord)]
pub struct SessionNo(pub u32);
