//! What a pod's message means in a greeting.

ghost use Rattle.std.specs.Prelude.{◌≡◌, IfSome};
ghost use Rattle.session_greeting.specs.Meanings.{auth_meaning, read_meaning, unread_meaning, meaning_of};

use pgw_frames::Frame;
use pgw_messages::tags::{NOTICE_RESPONSE, PARAMETER_STATUS};
use pgw_messages::{BackMsg, Fields, MsgFault, PodKey, read_back};
use std::alloc::Global;

/// What a message means for the greeting.
#[derive(Drop)]
pub(crate) enum Meaning {
    /// It goes on.
    GoesOn,
    /// It goes on behind one message of the client's.
    Asks,
    /// The pod's key. It goes on.
    Key(PodKey),
    /// The session is ready.
    Ready,
    /// There will be no session.
    Fault(Fields),
    /// It has no place in a greeting.
    Strange,
}

/// An authentication message of this code.
fn auth_meaning(code: u32) -> Meaning
    ensures { result ≡ auth_meaning code }
{
    if code == 0 || code == 12 {
        return Meaning::GoesOn;
    }
    if code == 3 || code == 5 || code == 10 || code == 11 {
        return Meaning::Asks;
    }
    Meaning::Strange
}

fn read_meaning(m: BackMsg) -> Meaning
    ensures { result ≡ read_meaning m }
{
    match m {
        BackMsg::Auth(auth) => auth_meaning(auth.code),
        BackMsg::Status(_) => Meaning::GoesOn,
        BackMsg::Key(key) => Meaning::Key(key),
        BackMsg::Ready(_) => Meaning::Ready,
        BackMsg::Fault(fields) => Meaning::Fault(fields),
        BackMsg::Notice(_) => Meaning::GoesOn,
        BackMsg::Columns(_) => Meaning::Strange,
        BackMsg::Row(_) => Meaning::Strange,
        BackMsg::Complete(_) => Meaning::Strange,
        BackMsg::Empty => Meaning::Strange,
        BackMsg::Notify(_) => Meaning::Strange,
        BackMsg::ParseDone => Meaning::Strange,
        BackMsg::BindDone => Meaning::Strange,
        BackMsg::CloseDone => Meaning::Strange,
        BackMsg::ParamTypes(_) => Meaning::Strange,
        BackMsg::NoRows => Meaning::Strange,
        BackMsg::Suspended => Meaning::Strange,
        BackMsg::CopyIn(_) => Meaning::Strange,
    }
}

/// A message of this type that can't be read.
fn unread_meaning(tag: u8) -> Meaning
    ensures { result ≡ unread_meaning tag }
{
    if tag == PARAMETER_STATUS || tag == NOTICE_RESPONSE {
        return Meaning::GoesOn;
    }
    Meaning::Strange
}

/// What the message means. There is no answer where it wants memory.
#[tactic(auto, using(crate::proofs::Reading::by_read, crate::proofs::Reading::by_unread))]
pub(crate) fn meaning_of(alloc: Global, f: &Frame) -> Option<Meaning>
    ensures { IfSome result (λ m. m ≡ meaning_of f.now) }
{
    match read_back(alloc, f) {
        Ok(m) => Some(read_meaning(m)),
        Err(MsgFault::NoMemory) => None,
        Err(
            MsgFault::UnknownTag(_)
            | MsgFault::Short
            | MsgFault::Trailing
            | MsgFault::NotText
            | MsgFault::BadValue,
        ) => Some(unread_meaning(f.tag)),
    }
}
