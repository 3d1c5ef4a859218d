//! What a door answers.

use crate::fault::DoorFault;
use pgw_frames::Text;
use pgw_messages::Params;
use proxy_outside::{ClientKey, TenantId};

/// Where a client wants to go, and with which parameters.
#[derive(Debug, Drop)]
pub struct Route {
    pub tenant: TenantId,
    pub user: Text,
    /// Those of the startup packet, with no cluster in `options` and `database`.
    pub params: Params,
}

/// What the bytes so far ask for.
#[derive(Debug, Drop)]
pub enum DoorStep {
    /// Further bytes, as many as `Door::want` says.
    Need,
    /// The one byte `N` as the answer. The door is then at its beginning again.
    Say,
    /// A session. The startup packet is whole.
    Ready(Route),
    /// That the statement under way in the session with this key is cancelled. There is no answer.
    Cancel(ClientKey),
    /// Nothing that can be had. The connection is of no more use.
    Refused(DoorFault),
}
