//! RowDescription.

ghost use Rattle.std.specs.Prelude.{◌≡◌, map, IfOk};
ghost use Rattle.pgw_messages.specs.Backend.{column_at, column_bytes, IsColumn, back_frame};
ghost use Rattle.pgw_messages.specs.ColumnViews.{column_of};
ghost use Rattle.pgw_messages.specs.Spelling.{HasNoZero};
ghost use Rattle.pgw_messages.specs.declared.backend.message.BackMsg.TheVariants as back;

use crate::fault::MsgFault;
use crate::item::Item;
use crate::items::Items;
use crate::reader::Reader;
use crate::tags;
use crate::view::ColumnView;
use crate::writer::Writer;
use pgw_frames::{Frame, NoMemory, Text};
use std::alloc::Global;

/// A column of a result.
#[derive(Debug, Drop)]
pub struct Column {
    pub name: Text,
    /// The object id of its table, or 0.
    pub table: u32,
    /// Its number in that table, or 0.
    pub column: u16,
    /// The object id of its type.
    pub kind: u32,
    /// How many bytes the type takes; negative where they vary.
    pub size: i16,
    /// The type's modifier, or -1.
    pub modifier: i32,
    /// 0 is text, 1 is binary.
    pub format: u16,
}

/// The columns of a result.
pub type Columns = Items<Column>;

impl Item for Column {
    ghost at = { column_at };

    ghost bytes = { column_bytes };

    ghost IsGood = { λ c. HasNoZero c.name → IsColumn c };

    fn read(r: &mut Reader<'_>) -> Result<Column, MsgFault> {
        let name = r.text()?;
        let table = r.u32()?;
        let column = r.u16()?;
        let kind = r.u32()?;
        let size = r.i16()?;
        let modifier = r.i32()?;
        let format = r.u16()?;
        Ok(Column {
            name,
            table,
            column,
            kind,
            size,
            modifier,
            format,
        })
    }

    fn write(&self, w: &mut Writer) -> Result<(), NoMemory> {
        w.text(&self.name)?;
        w.u32(self.table)?;
        w.u16(self.column)?;
        w.u32(self.kind)?;
        w.i16(self.size)?;
        w.i32(self.modifier)?;
        w.u16(self.format)?;
        Ok(())
    }
}

/// How many bytes these columns take with their count, or the most that a number can say.
fn columns_room(columns: &[ColumnView<'_>]) -> usize {
    let mut room = 2_usize;
    for column in columns {
        room = room.saturating_add(column.name.len()).saturating_add(19);
    }
    room
}

/// The frame of a RowDescription of these columns. Each name is copied once, into the frame.
pub fn columns_frame(alloc: Global, columns: &[ColumnView<'_>]) -> Result<Frame, NoMemory>
    ensures { IfOk result (λ f. f ≡ back_frame (back.Columns (map column_of columns.now))) }
{
    let mut body = Writer::with_room(alloc, columns_room(columns))?;
    body.columns(columns)?;
    Ok(Frame {
        tag: tags::ROW_DESCRIPTION,
        body: body.into_bytes(),
    })
}
