//! Handing a request to cancel on.

ghost use Rattle.std.specs.Prelude.{◌≡◌};
ghost use Rattle.session_cancel.specs.Cancelling.{cancel_request, Sends, Cancels};

use link_io::write_all;
use pgw_messages::PodKey;
use proxy_hub::{HubCommand, HubFault, HubPort, HubReply};
use proxy_links::{Dialed, Dialer};
use proxy_outside::{Addr, ClientKey, Place};
use std::sync::Wait;

/// The request with this key.
fn request_of(key: PodKey) -> [u8; 16]
    ensures { result ≡ cancel_request key }
{
    let p = key.process.to_be_bytes();
    let s = key.secret.to_be_bytes();
    [
        0, 0, 0, 16, 4, 210, 22, 46, p[0], p[1], p[2], p[3], s[0], s[1], s[2], s[3],
    ]
}

/// Dials the pod, sends it the request, and hangs up.
fn send<D: Dialer>(dialer: &mut D, place: Place, key: PodKey)
    ensures { Sends place key (D.links dialer.old) (D.links dialer.new) }
{
    match dialer.dial(place) {
        Dialed::Link(tx, rx) => {
            let mut tx = tx;
            let request = request_of(key);
            let _whole = write_all(&mut tx, &request);
            dialer.hang_up(tx, rx);
        }
        Dialed::Failed => {}
    }
}

/// Asks what the key stands for, for a client of this address, and sends the request there, where it stands for something.
/// An `Err` says that the hub wasn't asked.
pub fn cancel<W: Wait, H: HubPort, D: Dialer>(
    rt: &W,
    hub: &mut H,
    dialer: &mut D,
    peer: Addr,
    key: ClientKey,
) -> Result<(), HubFault>
    ensures { Cancels peer key (H.port hub.old) (H.port hub.new) (D.links dialer.old) (D.links dialer.new) result }
{
    match hub.ask(rt, HubCommand::Find { key, addr: peer }) {
        Ok(HubReply::Found(place, pod_key)) => {
            send(dialer, place, pod_key);
            Ok(())
        }
        Ok(HubReply::NoKey) => Ok(()),
        Ok(_) => unreachable!(),
        Err(fault) => Err(fault),
    }
}
