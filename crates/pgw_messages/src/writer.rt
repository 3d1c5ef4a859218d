//! Writing the fields of a message one after the other.

ghost use Rattle.std.specs.Prelude.{◌≡◌, ◌≤◌, [], ◌∷◌, ◌++◌, length, map, Some, IfOk, OnOk};
ghost use Rattle.std.specs.Int.{w16, w32, to_be_bytes};
ghost use Rattle.pgw_messages.specs.Backend.{column_bytes};
ghost use Rattle.pgw_messages.specs.ColumnViews.{column_of};
ghost use Rattle.pgw_messages.specs.Startup.{pair_bytes};
ghost use Rattle.pgw_messages.specs.Spelling.{text_bytes, signed_bytes, value_bytes, list_bytes, HasNoZero, FitsValue, IsText, IsValue, IsList};

use crate::item::Item;
use crate::items::Items;
use crate::view::ColumnView;
use pgw_frames::{Bytes, NoMemory, Text};
use std::alloc::Global;
use std::marker::Model;

/// How many bytes there is room for at first: most messages are short.
const FIRST_ROOM: usize = 32;

/// The bytes that were written so far. Contracts see them as a list.
#[derive(Drop)]
pub(crate) struct Writer {
    out: Bytes,
}

impl Model for Writer {
    ghost use Rattle.std.specs.Prelude.{List, ℕ};

    ghost Value = { List ℕ };

    ghost view = { λ w. w.out };
}

/// The low 32 bits of a length.
fn length_field(len: usize) -> u32
    ensures { to_be_bytes w32 result ≡ to_be_bytes w32 len }
{
    (len as u64 & 0xffff_ffff) as u32
}

/// The low 16 bits of a count.
fn count_field(count: usize) -> u16
    ensures { to_be_bytes w16 result ≡ to_be_bytes w16 count }
{
    (count as u64 & 0xffff) as u16
}

/// A text and its zero byte, in the text's own memory where that has room.
pub(crate) fn text_body(text: Text) -> Result<Bytes, NoMemory>
    ensures { IfOk result (λ b. b ≡ text_bytes text) }
{
    let mut body = text.into_string().into_bytes();
    body.push(0)?;
    Ok(Bytes::from_vec(body))
}

impl Writer {
    pub(crate) fn new(alloc: Global) -> Result<Writer, NoMemory>
        ensures { IfOk result (λ w. w ≡ []) }
    {
        Writer::with_room(alloc, FIRST_ROOM)
    }

    /// One that needs no further memory for so many bytes.
    pub(crate) fn with_room(alloc: Global, room: usize) -> Result<Writer, NoMemory>
        ensures { IfOk result (λ w. w ≡ []) }
    {
        let out = Vec::with_capacity(alloc, room)?;
        Ok(Writer {
            out: Bytes::from_vec(out),
        })
    }

    pub(crate) fn into_bytes(self) -> Bytes
        ensures { result ≡ self }
    {
        self.out
    }

    pub(crate) fn bytes(&mut self, bytes: &[u8]) -> Result<(), NoMemory>
        ensures { OnOk result (self.new ≡ self.old ++ bytes.now) }
    {
        self.out.extend(bytes)?;
        Ok(())
    }

    pub(crate) fn u8(&mut self, n: u8) -> Result<(), NoMemory>
        ensures { OnOk result (self.new ≡ self.old ++ n ∷ []) }
    {
        self.bytes(&[n])
    }

    pub(crate) fn u16(&mut self, n: u16) -> Result<(), NoMemory>
        ensures { OnOk result (self.new ≡ self.old ++ to_be_bytes w16 n) }
    {
        self.bytes(&n.to_be_bytes())
    }

    pub(crate) fn u32(&mut self, n: u32) -> Result<(), NoMemory>
        ensures { OnOk result (self.new ≡ self.old ++ to_be_bytes w32 n) }
    {
        self.bytes(&n.to_be_bytes())
    }

    pub(crate) fn i16(&mut self, n: i16) -> Result<(), NoMemory>
        ensures { OnOk result (self.new ≡ self.old ++ signed_bytes w16 n) }
    {
        self.bytes(&n.to_be_bytes())
    }

    pub(crate) fn i32(&mut self, n: i32) -> Result<(), NoMemory>
        ensures { OnOk result (self.new ≡ self.old ++ signed_bytes w32 n) }
    {
        self.bytes(&n.to_be_bytes())
    }

    /// A text and its zero byte.
    pub(crate) fn text(&mut self, t: &Text) -> Result<(), NoMemory>
        ensures bytes { OnOk result (self.new ≡ self.old ++ text_bytes t.now) }
        ensures good { OnOk result (HasNoZero t.now → IsText t.now) }
    {
        self.bytes(t.as_str().as_bytes())?;
        self.u8(0)?;
        Ok(())
    }

    /// A text that is lent, and its zero byte.
    fn lent_text(&mut self, t: &str) -> Result<(), NoMemory>
        ensures { OnOk result (self.new ≡ self.old ++ text_bytes t.now) }
    {
        self.bytes(t.as_bytes())?;
        self.u8(0)?;
        Ok(())
    }

    /// A name and a value that are lent, each with its zero byte.
    pub(crate) fn pair(&mut self, name: &str, value: &str) -> Result<(), NoMemory>
        ensures { OnOk result (self.new ≡ self.old ++ pair_bytes (record { name = name.now; value = value.now })) }
    {
        self.lent_text(name)?;
        self.lent_text(value)?;
        Ok(())
    }

    /// A column whose name is lent.
    fn column(&mut self, column: &ColumnView<'_>) -> Result<(), NoMemory>
        ensures { OnOk result (self.new ≡ self.old ++ column_bytes (column_of column.now)) }
    {
        self.lent_text(column.name)?;
        self.u32(column.table)?;
        self.u16(column.column)?;
        self.u32(column.kind)?;
        self.i16(column.size)?;
        self.i32(column.modifier)?;
        self.u16(column.format)?;
        Ok(())
    }

    /// The count of columns whose names are lent, by its low 16 bits, and the columns.
    pub(crate) fn columns(&mut self, columns: &[ColumnView<'_>]) -> Result<(), NoMemory>
        ensures { OnOk result (self.new ≡ self.old ++ list_bytes column_bytes (map column_of columns.now)) }
    {
        self.u16(count_field(columns.len()))?;
        for column in columns {
            self.column(column)?;
        }
        Ok(())
    }

    /// The length of a value, by its low 32 bits, and the value; or -1 for NULL.
    pub(crate) fn value(&mut self, v: &Option<Bytes>) -> Result<(), NoMemory>
        ensures bytes { OnOk result (self.new ≡ self.old ++ value_bytes v.now) }
        ensures good { FitsValue v.now → IsValue v.now }
    {
        let Some(value) = v else {
            return self.i32(-1);
        };
        self.some_value(value.as_slice())
    }

    /// The length of a value that isn't NULL, by its low 32 bits, and the value.
    fn some_value(&mut self, value: &[u8]) -> Result<(), NoMemory>
        ensures { OnOk result (self.new ≡ self.old ++ value_bytes (Some value.now)) }
    {
        self.u32(length_field(value.len()))?;
        self.bytes(value)?;
        Ok(())
    }

    /// The count of values of which none is NULL, by its low 16 bits, and the values.
    pub(crate) fn values(&mut self, values: &[&[u8]]) -> Result<(), NoMemory>
        ensures { OnOk result (self.new ≡ self.old ++ list_bytes value_bytes (map (λ v. Some v.now) values.now)) }
    {
        self.u16(count_field(values.len()))?;
        for value in values {
            self.some_value(value)?;
        }
        Ok(())
    }

    /// The count of a list, by its low 16 bits, and its items.
    pub(crate) fn list<T: Item>(&mut self, items: &Items<T>) -> Result<(), NoMemory>
        ensures bytes { OnOk result (self.new ≡ self.old ++ list_bytes T.bytes items.now) }
        ensures good { length items.now ≤ 65535 → OnOk result (IsList T.IsGood items.now) }
    {
        self.u16(count_field(items.len()))?;
        for item in items.as_slice() {
            item.write(self)?;
        }
        Ok(())
    }
}
