//! Where pods are.

use crate::addr::Addr;
use crate::identity::PodNo;

/// A pod, and the address and port at which it is dialed.
#[derive(Clone, Copy, Debug, PartialEq, Eq)]
pub struct Place {
    pub pod: PodNo,
    pub addr: Addr,
    pub port: u16,
}
