//! What the tally replies.

ghost use Rattle.std.specs.Prelude.{◌≡◌, ◌++◌, ◌∷◌, [], decimal, IfOk};
ghost use Rattle.session_model.specs.Texts as text;
ghost use Rattle.tally_session.specs.Replies as tally;

use itoa::Buffer;
use pgw_frames::{Bytes, Frame, Frames, NoMemory, Text};
use pgw_messages::{AuthMsg, BackMsg, CopyMsg, Field, Fields, Formats, PodKey};
use std::alloc::Global;

/// The status of a session outside a transaction, as ReadyForQuery has it.
pub(crate) const IDLE: u8 = b'I';

/// A ReadyForQuery.
fn ready(alloc: Global) -> Result<Frame, NoMemory>
    ensures { IfOk result (λ f. f ≡ text.ready IDLE) }
{
    BackMsg::Ready(IDLE).into_frame(alloc)
}

/// A frame, and the ReadyForQuery behind it.
fn then_ready(alloc: Global, first: Frame) -> Result<Frames, NoMemory>
    ensures { IfOk result (λ fs. fs ≡ first ∷ text.ready IDLE ∷ []) }
{
    let ready = ready(alloc)?;
    Ok(Frames::from_vec(vec![in alloc; first, ready]?))
}

/// A CommandComplete whose tag ends in a number.
fn complete(alloc: Global, word: &str, n: u64) -> Result<Frame, NoMemory>
    ensures { IfOk result (λ f. f ≡ text.complete (word.now ++ decimal n)) }
{
    let mut buffer = Buffer::new();
    let mut tag = String::with_capacity(alloc, 32)?;
    tag.push_str(word)?;
    tag.push_str(buffer.format(n))?;
    BackMsg::Complete(Text::from_string(tag)).into_frame(alloc)
}

/// A field of an error.
fn field(alloc: Global, code: u8, value: &str) -> Result<Field, NoMemory>
    ensures { IfOk result (λ f. f ≡ tally.field code value.now) }
{
    let value = Text::of(alloc, value)?;
    Ok(Field { code, value })
}

/// An ErrorResponse with this SQLSTATE.
fn fault(alloc: Global, code: &str, words: &str) -> Result<Frame, NoMemory>
    ensures { IfOk result (λ f. f ≡ tally.fault code.now words.now) }
{
    let mut fields = Fields::new(alloc);
    fields.push(field(alloc, b'S', "ERROR")?)?;
    fields.push(field(alloc, b'V', "ERROR")?)?;
    fields.push(field(alloc, b'C', code)?)?;
    fields.push(field(alloc, b'M', words)?)?;
    BackMsg::Fault(fields).into_frame(alloc)
}

/// An AuthenticationOk.
fn auth_ok(alloc: Global) -> Result<Frame, NoMemory>
    ensures { IfOk result (λ f. f ≡ tally.auth_ok) }
{
    let rest = Bytes::new(alloc);
    BackMsg::Auth(AuthMsg { code: 0, rest }).into_frame(alloc)
}

/// A BackendKeyData of zeros.
fn key_zero(alloc: Global) -> Result<Frame, NoMemory>
    ensures { IfOk result (λ f. f ≡ tally.key_zero) }
{
    let key = PodKey {
        process: 0,
        secret: 0,
    };
    BackMsg::Key(key).into_frame(alloc)
}

/// The greeting.
pub(crate) fn greeting(alloc: Global) -> Result<Frames, NoMemory>
    ensures { IfOk result (λ fs. fs ≡ tally.auth_ok ∷ tally.key_zero ∷ text.ready IDLE ∷ []) }
{
    let auth = auth_ok(alloc)?;
    let key = key_zero(alloc)?;
    let ready = ready(alloc)?;
    Ok(Frames::from_vec(vec![in alloc; auth, key, ready]?))
}

/// The answer to a Sync.
pub(crate) fn only_ready(alloc: Global) -> Result<Frames, NoMemory>
    ensures { IfOk result (λ fs. fs ≡ text.ready IDLE ∷ []) }
{
    let ready = ready(alloc)?;
    Ok(Frames::from_vec(vec![in alloc; ready]?))
}

/// The answer to a Query that was counted.
pub(crate) fn counted(alloc: Global, n: u64) -> Result<Frames, NoMemory>
    ensures { IfOk result (λ fs. fs ≡ tally.complete_tally n ∷ text.ready IDLE ∷ []) }
{
    let first = complete(alloc, "TALLY ", n)?;
    then_ready(alloc, first)
}

/// The beginning of a copy.
pub(crate) fn copy_in(alloc: Global) -> Result<Frames, NoMemory>
    ensures { IfOk result (λ fs. fs ≡ tally.copy_in ∷ []) }
{
    let copy = CopyMsg {
        format: 0,
        formats: Formats::new(alloc),
    };
    let first = BackMsg::CopyIn(copy).into_frame(alloc)?;
    Ok(Frames::from_vec(vec![in alloc; first]?))
}

/// The end of a copy of this many messages.
pub(crate) fn copy_done(alloc: Global, n: u64) -> Result<Frames, NoMemory>
    ensures { IfOk result (λ fs. fs ≡ tally.complete_copy n ∷ text.ready IDLE ∷ []) }
{
    let first = complete(alloc, "COPY ", n)?;
    then_ready(alloc, first)
}

/// The end of a copy that the client gave up.
pub(crate) fn copy_failed(alloc: Global) -> Result<Frames, NoMemory>
    ensures { IfOk result (λ fs. fs ≡ tally.copy_failed ∷ text.ready IDLE ∷ []) }
{
    let first = fault(alloc, "57014", "copy failed")?;
    then_ready(alloc, first)
}

/// The end of a copy by another message, and then what that message is answered.
pub(crate) fn copy_ended(alloc: Global, answer: Frames) -> Result<Frames, NoMemory>
    ensures { IfOk result (λ fs. fs ≡ (tally.copy_ended ∷ text.ready IDLE ∷ []) ++ answer) }
{
    let first = fault(alloc, "08P01", "copy ended by a message")?;
    let mut frames = then_ready(alloc, first)?.into_vec();
    frames.append(&mut answer.into_vec())?;
    Ok(Frames::from_vec(frames))
}
