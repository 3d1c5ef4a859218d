//! Asking where a session is to go.

ghost use Rattle.std.specs.Prelude.{◌≡◌};
ghost use Rattle.proxy_links.specs.Board.{raised};
ghost use Rattle.session_rounds.specs.Asking.{Aims};

use proxy_hub::{HubCommand, HubPort, HubReply};
use proxy_outside::{Place, SessionNo};
use std::sync::Wait;

/// Counts an ask that came to nothing.
fn count(unbooked: &mut u64)
    ensures { unbooked.new ≡ raised unbooked.old 1 }
{
    *unbooked = unbooked.saturating_add(1);
}

/// Asks for the place to which a session is to go, if it is to go at all. An ask that the port refuses, and one that
/// finds no such session, is raised.
#[tactic(auto, using(session_admission::proofs::Asked::asked_one, session_admission::proofs::Asked::asked_none))]
pub(crate) fn ask_target<W: Wait, H: HubPort>(
    rt: &W,
    hub: &mut H,
    session: SessionNo,
    unbooked: &mut u64,
) -> Option<Place>
    ensures { Aims session (H.port hub.old) (H.port hub.new) unbooked.old unbooked.new result }
{
    match hub.ask(rt, HubCommand::Target { session }) {
        Ok(HubReply::MoveTo(place)) => Some(place),
        Ok(HubReply::Stay) => None,
        Ok(HubReply::NoSession) => {
            count(unbooked);
            None
        }
        Ok(_) => unreachable!(),
        Err(_) => {
            count(unbooked);
            None
        }
    }
}
