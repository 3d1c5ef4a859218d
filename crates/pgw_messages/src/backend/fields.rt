//! What an error or a notice says. PostgreSQL manual, "Message Formats", ErrorResponse and
//! NoticeResponse, and "Error and Notice Message Fields".

ghost use Rattle.std.specs.Prelude.{◌≡◌, ◌++◌, OnOk};
ghost use Rattle.pgw_messages.specs.Reading.{Reads};
ghost use Rattle.pgw_messages.specs.Fields.{field_at, field_bytes, fields_at, fields_bytes, IsField, CanWriteField};
ghost use Rattle.std.specs.List.{AllByRecursion};

use crate::fault::MsgFault;
use crate::items::Items;
use crate::reader::Reader;
use crate::writer::Writer;
use pgw_frames::{NoMemory, Text};

/// One field of an error or a notice.
#[derive(Debug, Drop)]
pub struct Field {
    /// What the value is, as an ASCII letter: `S` severity, `C` code, `M` message and others. Never 0.
    pub code: u8,
    pub value: Text,
}

/// The fields of an error or a notice.
pub type Fields = Items<Field>;

fn read_field(r: &mut Reader<'_>) -> Result<Field, MsgFault>
    ensures { Reads result r.new (field_at r.old) }
{
    let code = r.u8()?;
    let value = r.text()?;
    Ok(Field { code, value })
}

pub(crate) fn read_fields(r: &mut Reader<'_>) -> Result<Fields, MsgFault>
    ensures { Reads result r.new (fields_at r.old) }
{
    let mut fields = Items::new(r.allocator());
    while !r.ends()? {
        let field = read_field(r)?;
        fields.push(field)?;
    }
    Ok(fields)
}

fn write_field(field: &Field, w: &mut Writer) -> Result<(), NoMemory>
    ensures bytes { OnOk result (w.new ≡ w.old ++ field_bytes field.now) }
    ensures good { OnOk result (CanWriteField field.now → IsField field.now) }
{
    w.u8(field.code)?;
    w.text(&field.value)?;
    Ok(())
}

pub(crate) fn write_fields(fields: &Fields, w: &mut Writer) -> Result<(), NoMemory>
    ensures bytes { OnOk result (w.new ≡ w.old ++ fields_bytes fields.now) }
    ensures good { OnOk result (AllByRecursion (λ f. CanWriteField f → IsField f) fields.now) }
{
    for field in fields.as_slice() {
        write_field(field, w)?;
    }
    w.u8(0)?;
    Ok(())
}
