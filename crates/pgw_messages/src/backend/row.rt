//! The frame of a row whose values are lent.

ghost use Rattle.std.specs.Prelude.{◌≡◌, map, Some, IfOk};
ghost use Rattle.pgw_messages.specs.Backend.{back_frame};
ghost use Rattle.pgw_messages.specs.declared.backend.message.BackMsg.TheVariants as back;

use crate::tags;
use crate::writer::Writer;
use pgw_frames::{Frame, NoMemory};
use std::alloc::Global;

/// How many bytes these values take with their count, or the most that a number can say.
fn values_room(values: &[&[u8]]) -> usize {
    let mut room = 2_usize;
    for value in values {
        room = room.saturating_add(value.len()).saturating_add(4);
    }
    room
}

/// The frame of a DataRow of these values, none of which is NULL. Each is copied once, into the frame.
pub fn row_frame(alloc: Global, values: &[&[u8]]) -> Result<Frame, NoMemory>
    ensures { IfOk result (λ f. f ≡ back_frame (back.Row (map (λ v. Some v.now) values.now))) }
{
    let mut body = Writer::with_room(alloc, values_room(values))?;
    body.values(values)?;
    Ok(Frame {
        tag: tags::DATA_ROW,
        body: body.into_bytes(),
    })
}
