//! What a hub answers.

use pgw_messages::PodKey;
use pod_balancer::Moves;
use proxy_outside::{ClientKey, Place, SessionNo};

/// Why a client gets no session or no pod.
#[derive(Clone, Copy, Debug, PartialEq, Eq)]
pub enum Refusal {
    /// The place of the deny entry, counted from 0.
    Denied(u32),
    /// No network of the tenant's allow list has the client's address.
    NotAllowed,
    /// After failed logins: not before this moment, in seconds.
    Throttled(u64),
    /// No row of the tenant was applied.
    NoTenant,
    /// No pod of the tenant runs, of those that may be picked.
    NoPod,
    /// All numbers of sessions were given.
    NoNumbers,
}

/// A reply to a command.
#[derive(Debug, Drop)]
pub enum HubReply {
    Done,
    /// The row that counts has this version, which isn't below the new one's.
    Stale(u64),
    Admitted(SessionNo),
    No(Refusal),
    Key(ClientKey),
    Picked(Place),
    MoveTo(Place),
    /// The session stays where it is.
    Stay,
    Moves(Moves),
    Found(Place, PodKey),
    NoKey,
    /// The session isn't live, or has not what was asked of it.
    NoSession,
}
