//! What a pod knows of its tenant.

use pgw_frames::{Bytes, Text};
use pgw_messages::Items;
use proxy_outside::TenantId;

/// Who may log in.
#[derive(Debug, Drop)]
pub struct User {
    pub name: Text,
    pub password: Text,
}

pub type Users = Items<User>;

/// What a pod knows of its tenant. The pods of a tenant have equal settings.
#[derive(Debug, Drop)]
pub struct PodSettings {
    pub tenant: TenantId,
    /// What tokens are signed with.
    pub secret: Bytes,
    /// Until when tokens are good, in seconds.
    pub token_until: u64,
    pub users: Users,
}
