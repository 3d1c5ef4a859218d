//! What is kept of a key.

ghost use Rattle.std.specs.Prelude.{◌≡◌};
ghost use Rattle.cancel_keys.specs.Given.{opens};

use pgw_messages::PodKey;
use proxy_outside::{Addr, Place};

/// To whom a key was given, its secret, and what it stands for, once that is bound.
#[derive(Clone, Copy, Debug, PartialEq, Eq)]
pub struct Given {
    pub addr: Addr,
    pub secret: u32,
    pub target: Option<(Place, PodKey)>,
}

impl Given {
    /// Whether a client of this address that shows this secret is the one to whom the key was given.
    pub fn opens(&self, secret: u32, addr: &Addr) -> bool
        ensures { result ≡ opens self.now secret addr.now }
    {
        self.secret == secret && self.addr == *addr
    }
}
