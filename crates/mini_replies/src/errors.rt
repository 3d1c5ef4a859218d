//! ErrorResponse.

ghost use Rattle.std.specs.Prelude.{◌≡◌, IfOk};
ghost use Rattle.mini_kind.specs.Replies as reply;

use mini_store::SqlCode;
use pgw_frames::{Frame, NoMemory, Text};
use pgw_messages::{BackMsg, Field, Fields};
use std::alloc::Global;

fn field(alloc: Global, letter: u8, text: &str) -> Result<Field, NoMemory>
    ensures { IfOk result (λ f. f ≡ reply.field letter text.now) }
{
    let value = Text::of(alloc, text)?;
    Ok(Field {
        code: letter,
        value,
    })
}

/// An error with this code: its severity, the code and its message.
pub fn error(alloc: Global, code: SqlCode) -> Result<Frame, NoMemory>
    ensures { IfOk result (λ f. f ≡ reply.error code) }
{
    let mut fields = Fields::new(alloc);
    fields.push(field(alloc, b'S', "ERROR")?)?;
    fields.push(field(alloc, b'V', "ERROR")?)?;
    fields.push(field(alloc, b'C', code.digits())?)?;
    fields.push(field(alloc, b'M', code.message())?)?;
    BackMsg::Fault(fields).into_frame(alloc)
}
