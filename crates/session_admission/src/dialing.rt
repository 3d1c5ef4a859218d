//! Picking and dialing a pod.

ghost use Rattle.std.specs.Prelude.{[], ◌∷◌};
ghost use Rattle.session_admission.specs.Dialing.{Tries, Finds};

use proxy_hub::{HubCommand, HubFault, HubPort, HubReply, Refusal};
use proxy_links::{Dialed, Dialer};
use proxy_outside::{Place, PodNo, TenantId};
use std::sync::Wait;

/// What one pick and dial gave.
#[derive(Drop)]
pub(crate) enum Tried<T, R> {
    Link(Place, T, R),
    /// The dial of this pod failed.
    Failed(PodNo),
    /// The hub picks none.
    Refused(Refusal),
    /// The hub wasn't asked.
    Fault(HubFault),
}

/// What picking and dialing gave.
#[derive(Drop)]
pub enum Found<T, R> {
    /// A link to the pod at this place.
    Link(Place, T, R),
    /// Each pod that was picked was dialed in vain, and there are no more, or three were dialed.
    DialFault,
    /// The hub picked no pod at all.
    Refused(Refusal),
    /// The hub wasn't asked.
    Fault(HubFault),
}

/// Picks a pod, and not one of these two, and dials it.
#[tactic(auto, using(crate::proofs::Asked::asked_one, crate::proofs::Asked::asked_none))]
fn try_pod<W: Wait, H: HubPort, D: Dialer>(
    rt: &W,
    hub: &mut H,
    dialer: &mut D,
    tenant: TenantId,
    first: Option<PodNo>,
    second: Option<PodNo>,
) -> Tried<D::Tx, D::Rx>
    ensures { Tries D.Tx.target D.Rx.origin tenant first second (H.port hub.old) (H.port hub.new) (D.links dialer.old) (D.links dialer.new) result }
{
    match hub.ask(
        rt,
        HubCommand::Pick {
            tenant,
            first,
            second,
        },
    ) {
        Ok(HubReply::Picked(place)) => match dialer.dial(place) {
            Dialed::Link(tx, rx) => Tried::Link(place, tx, rx),
            Dialed::Failed => Tried::Failed(place.pod),
        },
        Ok(HubReply::No(why)) => Tried::Refused(why),
        Ok(_) => unreachable!(),
        Err(fault) => Tried::Fault(fault),
    }
}

/// The third pod, where the dials of two failed.
fn third_pod<W: Wait, H: HubPort, D: Dialer>(
    rt: &W,
    hub: &mut H,
    dialer: &mut D,
    tenant: TenantId,
    first: PodNo,
    second: PodNo,
) -> Found<D::Tx, D::Rx>
    ensures { Finds D.Tx.target D.Rx.origin tenant (first ∷ second ∷ []) (H.port hub.old) (H.port hub.new) (D.links dialer.old) (D.links dialer.new) result }
{
    match try_pod(rt, hub, dialer, tenant, Some(first), Some(second)) {
        Tried::Link(place, tx, rx) => Found::Link(place, tx, rx),
        Tried::Failed(_) => Found::DialFault,
        Tried::Refused(_) => Found::DialFault,
        Tried::Fault(fault) => Found::Fault(fault),
    }
}

/// The second pod, where the dial of one failed.
fn second_pod<W: Wait, H: HubPort, D: Dialer>(
    rt: &W,
    hub: &mut H,
    dialer: &mut D,
    tenant: TenantId,
    first: PodNo,
) -> Found<D::Tx, D::Rx>
    ensures { Finds D.Tx.target D.Rx.origin tenant (first ∷ []) (H.port hub.old) (H.port hub.new) (D.links dialer.old) (D.links dialer.new) result }
{
    match try_pod(rt, hub, dialer, tenant, Some(first), None) {
        Tried::Link(place, tx, rx) => Found::Link(place, tx, rx),
        Tried::Failed(second) => third_pod(rt, hub, dialer, tenant, first, second),
        Tried::Refused(_) => Found::DialFault,
        Tried::Fault(fault) => Found::Fault(fault),
    }
}

/// Picks and dials a pod of the tenant, and again where a dial failed; three are dialed at most.
pub fn find_pod<W: Wait, H: HubPort, D: Dialer>(
    rt: &W,
    hub: &mut H,
    dialer: &mut D,
    tenant: TenantId,
) -> Found<D::Tx, D::Rx>
    ensures { Finds D.Tx.target D.Rx.origin tenant [] (H.port hub.old) (H.port hub.new) (D.links dialer.old) (D.links dialer.new) result }
{
    match try_pod(rt, hub, dialer, tenant, None, None) {
        Tried::Link(place, tx, rx) => Found::Link(place, tx, rx),
        Tried::Failed(first) => second_pod(rt, hub, dialer, tenant, first),
        Tried::Refused(why) => Found::Refused(why),
        Tried::Fault(fault) => Found::Fault(fault),
    }
}
