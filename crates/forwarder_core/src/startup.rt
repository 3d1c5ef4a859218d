//! What each pod is told first.

ghost use Rattle.std.specs.Prelude.{◌≡◌};
ghost use Rattle.forwarder_core.specs.Starting.{CanStart};

use pgw_messages::Params;
use std::marker::Model;

/// The parameters of a session, as a World may start with them. Contracts see the parameters.
#[derive(Drop)]
pub(crate) struct Startup {
    params: Params,
}

impl Model for Startup {
    ghost use Rattle.std.specs.Prelude.{List};
    ghost use Rattle.forwarder_core.specs.Starting.{CanStart};
    ghost use Rattle.pgw_messages.specs.declared.params.Pair.{Pair};

    ghost Value = { List Pair };

    ghost view = { λ o. o.params };

    ghost invariant = { λ o. CanStart o.params };
}

impl Startup {
    pub fn new(params: Params) -> Startup
        requires { CanStart params }
        ensures { result ≡ params }
    {
        Startup { params }
    }

    pub fn params(&self) -> &Params
        ensures value { result.now ≡ self.now }
        ensures can_start { CanStart result.now }
    {
        &self.params
    }
}
