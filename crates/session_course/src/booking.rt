//! What the hub is told of a session in its course.

ghost use Rattle.std.specs.Prelude.{◌≡◌, ⊤, ◌⊎◌};
ghost use Rattle.proxy_hub.specs.declared.command.HubCommand.TheVariants.{Assign, Bind, Release};
ghost use Rattle.session_course.specs.Booking.{AsksOne, BindsKey, BooksMove};

use crate::counts::count;
use pgw_messages::PodKey;
use proxy_hub::{HubCommand, HubPort, HubReply};
use proxy_outside::{Place, SessionNo};
use std::sync::Wait;

/// Asks that the session's place be kept.
fn assign<W: Wait, H: HubPort>(
    rt: &W,
    hub: &mut H,
    session: SessionNo,
    place: Place,
    unbooked: &mut u64,
)
    ensures { AsksOne (Assign session place) (H.port hub.old) (H.port hub.new) unbooked.old unbooked.new }
{
    match hub.ask(rt, HubCommand::Assign { session, place }) {
        Ok(HubReply::Done) => {}
        Ok(HubReply::NoSession) => count(unbooked),
        Ok(_) => unreachable!(),
        Err(_) => count(unbooked),
    }
}

/// Binds the pod's key to the session.
fn bind<W: Wait, H: HubPort>(
    rt: &W,
    hub: &mut H,
    session: SessionNo,
    key: PodKey,
    unbooked: &mut u64,
)
    ensures { AsksOne (Bind session key) (H.port hub.old) (H.port hub.new) unbooked.old unbooked.new }
{
    match hub.ask(rt, HubCommand::Bind { session, key }) {
        Ok(HubReply::Done) => {}
        Ok(HubReply::NoSession) => count(unbooked),
        Ok(_) => unreachable!(),
        Err(_) => count(unbooked),
    }
}

/// Binds the pod's key, where it gave one.
fn bind_key<W: Wait, H: HubPort>(
    rt: &W,
    hub: &mut H,
    session: SessionNo,
    key: Option<PodKey>,
    unbooked: &mut u64,
)
    ensures { BindsKey session key (H.port hub.old) (H.port hub.new) unbooked.old unbooked.new }
{
    match key {
        Some(key) => bind(rt, hub, session, key, unbooked),
        None => {}
    }
}

/// Books a move: the session's new place, and its pod's key, where that gave one.
pub(crate) fn book<W: Wait, H: HubPort>(
    rt: &W,
    hub: &mut H,
    session: SessionNo,
    place: Place,
    key: Option<PodKey>,
    unbooked: &mut u64,
)
    ensures { BooksMove session place key (H.port hub.old) (H.port hub.new) unbooked.old unbooked.new }
{
    assign(rt, hub, session, place, unbooked);
    bind_key(rt, hub, session, key, unbooked);
}

/// Tells the hub that the session has ended.
pub fn release<W: Wait, H: HubPort>(rt: &W, hub: &mut H, session: SessionNo, unbooked: &mut u64)
    ensures { AsksOne (Release session) (H.port hub.old) (H.port hub.new) unbooked.old unbooked.new }
{
    match hub.ask(rt, HubCommand::Release { session }) {
        Ok(HubReply::Done) => {}
        Ok(HubReply::NoSession) => count(unbooked),
        Ok(_) => unreachable!(),
        Err(_) => count(unbooked),
    }
}
