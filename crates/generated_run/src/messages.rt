//! The messages of a turn.

ghost use Rattle.std.specs.Prelude.{◌≡◌, ◌++◌, ◌≤◌, ◌+◌, length, IfOk, OnOk};
ghost use Rattle.std.specs.List.{AllByRecursion};
ghost use Rattle.pgw_frames.specs.Frames.{IsGood, render};
ghost use Rattle.session_model.specs.Texts as text;
ghost use Rattle.generated_run.specs.Generated as generated;

use itoa::Buffer;
use pgw_frames::{Bytes, Frame, Frames, NoMemory, Text, write_frame};
use pgw_messages::FrontMsg;
use std::alloc::Global;

/// A Query with this text.
fn query(alloc: Global, words: &str) -> Result<Frame, NoMemory>
    ensures { IfOk result (λ f. f ≡ text.query words.now) }
{
    FrontMsg::Query(Text::of(alloc, words)?).into_frame(alloc)
}

/// A Query with this number.
pub(crate) fn queries(alloc: Global, number: u32) -> Result<Frames, NoMemory>
    ensures { IfOk result (λ fs. fs ≡ generated.queries number) }
{
    let mut buffer = Buffer::new();
    let query = query(alloc, buffer.format(number))?;
    Ok(Frames::from_vec(vec![in alloc; query]?))
}

/// A Sync.
pub(crate) fn syncs(alloc: Global) -> Result<Frames, NoMemory>
    ensures { IfOk result (λ fs. fs ≡ generated.syncs) }
{
    let sync = FrontMsg::Sync.into_frame(alloc)?;
    Ok(Frames::from_vec(vec![in alloc; sync]?))
}

/// A copy with one byte of data.
pub(crate) fn copies(alloc: Global) -> Result<Frames, NoMemory>
    ensures { IfOk result (λ fs. fs ≡ generated.copies) }
{
    let query = query(alloc, "COPY t FROM STDIN")?;
    let data = FrontMsg::CopyData(Bytes::of(alloc, b"x")?).into_frame(alloc)?;
    let done = FrontMsg::CopyDone.into_frame(alloc)?;
    Ok(Frames::from_vec(vec![in alloc; query, data, done]?))
}

/// The bytes of messages.
pub(crate) fn render(alloc: Global, messages: &Frames) -> Result<Bytes, NoMemory>
    requires { AllByRecursion IsGood messages.now }
    ensures { IfOk result (λ b. b ≡ render messages.now) }
{
    let mut bytes = Bytes::new(alloc);
    let items = messages.as_slice();
    for f in items {
        write_frame(f, &mut bytes)?;
    }
    Ok(bytes)
}
