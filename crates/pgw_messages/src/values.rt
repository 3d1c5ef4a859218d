//! Values of a row, and of the parameters of a statement.

ghost use Rattle.pgw_messages.specs.Reading.{value_at};
ghost use Rattle.pgw_messages.specs.Spelling.{value_bytes, FitsValue, IsValue};

use crate::fault::MsgFault;
use crate::item::Item;
use crate::items::Items;
use crate::reader::Reader;
use crate::writer::Writer;
use pgw_frames::{Bytes, NoMemory};

/// Values, of which `None` is NULL.
pub type Row = Items<Option<Bytes>>;

impl Item for Option<Bytes> {
    ghost at = { value_at };

    ghost bytes = { value_bytes };

    ghost IsGood = { λ v. FitsValue v → IsValue v };

    fn read(r: &mut Reader<'_>) -> Result<Option<Bytes>, MsgFault> {
        r.value()
    }

    fn write(&self, w: &mut Writer) -> Result<(), NoMemory> {
        w.value(self)
    }
}
