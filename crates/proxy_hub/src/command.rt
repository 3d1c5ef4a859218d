//! What a hub is asked.

use access_lists::Lists;
use pgw_messages::PodKey;
use proxy_outside::{Addr, ClientKey, Place, PodNo, SessionNo, TenantId};
use tenant_directory::TenantRow;

/// A command to a hub. Moments are in seconds.
#[derive(Debug, Drop)]
pub enum HubCommand {
    /// These deny entries and allow lists count from now on.
    SetLists(Lists),
    /// A tenant's pods, at a version.
    Update(TenantRow),
    /// A client of this address wants a session of this tenant.
    Admit {
        addr: Addr,
        tenant: TenantId,
        now: u64,
    },
    /// The session's client shall get a key, made from a random word.
    GiveKey {
        session: SessionNo,
        addr: Addr,
        word: u64,
    },
    /// A pod for a session of this tenant, and not one of these two, which were tried.
    Pick {
        tenant: TenantId,
        first: Option<PodNo>,
        second: Option<PodNo>,
    },
    /// The session stands at this place now.
    Assign {
        session: SessionNo,
        place: Place,
    },
    /// The session's key stands for this key of the pod at which it is.
    Bind {
        session: SessionNo,
        key: PodKey,
    },
    /// A login was tried.
    Report {
        addr: Addr,
        tenant: TenantId,
        ok: bool,
        now: u64,
    },
    /// Where the session is to move, if at all.
    Target {
        session: SessionNo,
    },
    /// All moves that a tenant's sessions are to make.
    Plan {
        tenant: TenantId,
    },
    /// What a key stands for, that a client of this address shows.
    Find {
        key: ClientKey,
        addr: Addr,
    },
    /// The session has ended.
    Release {
        session: SessionNo,
    },
}
