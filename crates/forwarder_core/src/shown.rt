//! A message of the pod as the client gets it.

ghost use Rattle.std.specs.Prelude.{◌≡◌, ◌==◌, ◌||◌, if◌then◌else◌, IfOk};
ghost use Rattle.pgw_frames.specs.Frames.{IsGood};
ghost use Rattle.session_model.specs.Heard.{with_key};

use pgw_frames::{Frame, NoMemory};
use pgw_messages::{BackMsg, PodKey, tags};
use proxy_outside::ClientKey;
use std::alloc::Global;

/// A message as the client gets it: in a greeting a BackendKeyData has the client's key.
pub(crate) fn shown(
    alloc: Global,
    greeted: bool,
    key: ClientKey,
    f: Frame,
) -> Result<Frame, NoMemory>
    requires { IsGood f }
    ensures shown { IfOk result (λ g. g ≡ (if greeted then f else with_key key f)) }
    ensures good { IfOk result IsGood }
{
    if greeted {
        return Ok(f);
    }
    if f.tag != tags::BACKEND_KEY_DATA {
        return Ok(f);
    }
    let key = PodKey {
        process: key.process,
        secret: key.secret,
    };
    let shown = BackMsg::Key(key).into_frame(alloc)?;
    Ok(Frame {
        tag: f.tag,
        body: shown.body,
    })
}

/// Whether the greeting has ended with this message or before it.
pub(crate) fn is_greeted(before: bool, tag: u8) -> bool
    ensures { result ≡ (before || (tag == 90)) }
{
    before || tag == tags::READY_FOR_QUERY
}
