//! Sending a message of the client's login on, and what a greeting comes to.

ghost use Rattle.std.specs.Prelude.{◌≤◌, ◌+◌};
ghost use Rattle.session_greeting.specs.Logins.{LogsIn};

use link_io::write_message;
use link_transfer::{Heard, read_message};
use pgw_messages::tags::TERMINATE;
use pgw_messages::{Fields, PodKey};
use proxy_outside::{Sink, Source};
use std::alloc::Global;
use transfer_stages::Cut;

/// What a greeting came to.
#[derive(Drop)]
pub enum Greeted {
    /// The session is ready: the pod's key, where it gave one, and how often the client was idle up to here.
    Ready(Option<PodKey>, u64),
    /// The pod's ErrorResponse, which was passed on, has these fields.
    Refused(Fields),
    /// The client sent a Terminate, which was sent on.
    Left,
    /// The pod's link came to its end, or its message has no place in a greeting.
    PodCut(Cut),
    /// The client came to its end.
    ClientCut(Cut),
    NoMemory,
}

/// Sends one message of the client's on to the pod. The answer is how often the client was idle up to here.
pub(crate) fn log_in<S: Source, T: Sink>(
    alloc: Global,
    client_in: &mut S,
    tx: &mut T,
    waited: u64,
    patience: u64,
) -> Result<u64, Greeted>
    requires { waited + 1 ≤ patience }
    ensures { LogsIn waited patience (S.origin client_in.old) (S.origin client_in.new) (T.target tx.old) (T.target tx.new) result }
{
    match read_message(alloc, client_in, waited, patience) {
        Heard::Whole(f, waits) => {
            if !write_message(tx, &f) {
                return Err(Greeted::PodCut(Cut::WriteFault));
            }
            if f.tag == TERMINATE {
                return Err(Greeted::Left);
            }
            Ok(waits)
        }
        Heard::Lost(_, _) => Err(Greeted::NoMemory),
        Heard::Cut(c) => Err(Greeted::ClientCut(c)),
    }
}
