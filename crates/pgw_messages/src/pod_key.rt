//! The key of a pod's session.

/// The body of BackendKeyData, as a pod sends it.
#[derive(Clone, Copy, Debug, PartialEq, Eq)]
pub struct PodKey {
    pub process: u32,
    pub secret: u32,
}
