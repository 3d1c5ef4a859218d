//! Rings by the table of bells.

use crate::bells::Bells;
use pod_drain::Ringer;
use proxy_outside::SessionNo;
use std::sync::Wait;

/// Rings the connections whose bells are kept. Whom it rang isn't told.
#[derive(Drop)]
pub struct BellRinger<'a, R> {
    rt: &'a R,
    bells: &'a Bells,
}

impl<'a, R: Wait> BellRinger<'a, R> {
    /// A ringer by these bells. It takes no memory.
    pub fn new(rt: &'a R, bells: &'a Bells) -> BellRinger<'a, R> {
        BellRinger { rt, bells }
    }
}

impl<'a, R: Wait> Ringer for BellRinger<'a, R> {
    ghost use Rattle.std.specs.Prelude.{None};

    ghost rings = { λ _. None };

    fn ring(&mut self, session: SessionNo) {
        self.bells.ring(self.rt, session);
    }
}
