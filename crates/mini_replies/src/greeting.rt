//! The greeting.

ghost use Rattle.std.specs.Prelude.{◌≡◌, [], IfOk};
ghost use Rattle.pgw_messages.specs.Backend.{back_frame};
ghost use Rattle.pgw_messages.specs.declared.backend.message.BackMsg.TheVariants as back;
ghost use Rattle.mini_kind.specs.Replies as reply;

use pgw_frames::{Bytes, Frame, Frames, NoMemory, Text};
use pgw_messages::{AuthMsg, BackMsg, Pair, PodKey};
use session_model::ready;
use std::alloc::Global;

/// An AuthenticationOk.
fn auth_ok(alloc: Global) -> Result<Frame, NoMemory>
    ensures { IfOk result (λ f. f ≡ back_frame (back.Auth (record { code = 0; rest = [] }))) }
{
    let rest = Bytes::new(alloc);
    BackMsg::Auth(AuthMsg { code: 0, rest }).into_frame(alloc)
}

/// A BackendKeyData of zeros: the session can't be cancelled by a key.
fn key_zero(alloc: Global) -> Result<Frame, NoMemory>
    ensures { IfOk result (λ f. f ≡ back_frame (back.Key (record { process = 0; secret = 0 }))) }
{
    let key = PodKey {
        process: 0,
        secret: 0,
    };
    BackMsg::Key(key).into_frame(alloc)
}

/// A ParameterStatus.
fn status(alloc: Global, name: &str, value: &str) -> Result<Frame, NoMemory>
    ensures { IfOk result (λ f. f ≡ reply.status_frame name.now value.now) }
{
    let name = Text::of(alloc, name)?;
    let value = Text::of(alloc, value)?;
    BackMsg::Status(Pair { name, value }).into_frame(alloc)
}

/// What a session says as it begins: that the login passed, its parameters, a key, and ready.
pub fn greets(alloc: Global) -> Result<Frames, NoMemory>
    ensures { IfOk result (λ fs. fs ≡ reply.greeting) }
{
    let auth = auth_ok(alloc)?;
    let version = status(alloc, "server_version", "13.0")?;
    let encoding = status(alloc, "client_encoding", "UTF8")?;
    let strings = status(alloc, "standard_conforming_strings", "on")?;
    let datetimes = status(alloc, "integer_datetimes", "on")?;
    let style = status(alloc, "DateStyle", "ISO, MDY")?;
    let key = key_zero(alloc)?;
    let ready = ready(alloc, b'I')?;
    Ok(Frames::from_vec(vec![in alloc;
        auth, version, encoding, strings, datetimes, style, key, ready,
    ]?))
}
