//! What the hub is told of a session.

ghost use Rattle.std.specs.Prelude.{option_to_list};
ghost use Rattle.session_asks.specs.Asks.{Alone};
ghost use Rattle.session_asks.specs.Between.{Binds};
ghost use Rattle.proxy_hub.specs.declared.command.HubCommand.TheVariants.{Release};
ghost use Rattle.session_opening.specs.Booking.{Asks, Assigns, Reports, Books};

use crate::ending::refuses_login;
use pgw_messages::PodKey;
use proxy_hub::{HubCommand, HubFault, HubPort, HubReply};
use proxy_links::Clock;
use proxy_outside::{Addr, ClientKey, Place, SessionNo, TenantId};
use session_greeting::Greeted;
use std::sync::Wait;

/// A client that was let in.
#[derive(Clone, Copy, Debug, PartialEq, Eq)]
pub(crate) struct Guest {
    pub peer: Addr,
    pub tenant: TenantId,
    pub session: SessionNo,
    pub key: ClientKey,
}

/// Asks that the session's place be kept. A session that isn't live any more goes on as any other.
pub(crate) fn assign<W: Wait, H: HubPort>(
    rt: &W,
    hub: &mut H,
    session: SessionNo,
    place: Place,
) -> Result<(), HubFault>
    ensures { Assigns session place (H.port hub.old) (H.port hub.new) result }
{
    match hub.ask(rt, HubCommand::Assign { session, place }) {
        Ok(HubReply::Done) => Ok(()),
        Ok(HubReply::NoSession) => Ok(()),
        Ok(_) => unreachable!(),
        Err(fault) => Err(fault),
    }
}

/// Reports a login, at the moment that the clock gives.
fn report<W: Wait, H: HubPort, C: Clock>(rt: &W, hub: &mut H, clock: &mut C, guest: Guest, ok: bool)
    ensures { Reports guest ok (H.port hub.old) (H.port hub.new) (C.given clock.old) (C.given clock.new) }
{
    let now = clock.now();
    match hub.ask(
        rt,
        HubCommand::Report {
            addr: guest.peer,
            tenant: guest.tenant,
            ok,
            now,
        },
    ) {
        Ok(HubReply::Done) => {}
        Ok(_) => unreachable!(),
        Err(_) => {}
    }
}

/// Binds the pod's key to the session, where there is one.
fn bind<W: Wait, H: HubPort>(rt: &W, hub: &mut H, session: SessionNo, key: Option<PodKey>)
    ensures { Asks (Binds session (option_to_list key)) (H.port hub.old) (H.port hub.new) }
{
    match key {
        Some(key) => match hub.ask(rt, HubCommand::Bind { session, key }) {
            Ok(HubReply::Done) => {}
            Ok(HubReply::NoSession) => {}
            Ok(_) => unreachable!(),
            Err(_) => {}
        },
        None => {}
    }
}

/// Tells the hub what a greeting came to: a login that succeeded, with the pod's key, or one that failed.
pub(crate) fn book<W: Wait, H: HubPort, C: Clock>(
    rt: &W,
    hub: &mut H,
    clock: &mut C,
    guest: Guest,
    greeted: &Greeted,
)
    ensures { Books guest greeted.now (H.port hub.old) (H.port hub.new) (C.given clock.old) (C.given clock.new) }
{
    match greeted {
        Greeted::Ready(key, _) => {
            report(rt, hub, clock, guest, true);
            bind(rt, hub, guest.session, *key);
        }
        Greeted::Refused(fields) => {
            if refuses_login(fields) {
                report(rt, hub, clock, guest, false);
            }
        }
        Greeted::Left => {}
        Greeted::PodCut(_) => {}
        Greeted::ClientCut(_) => {}
        Greeted::NoMemory => {}
    }
}

/// Tells the hub that the session has ended.
pub(crate) fn release<W: Wait, H: HubPort>(rt: &W, hub: &mut H, session: SessionNo)
    ensures { Asks (Alone (Release session)) (H.port hub.old) (H.port hub.new) }
{
    match hub.ask(rt, HubCommand::Release { session }) {
        Ok(HubReply::Done) => {}
        Ok(HubReply::NoSession) => {}
        Ok(_) => unreachable!(),
        Err(_) => {}
    }
}
