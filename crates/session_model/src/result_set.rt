//! The messages that a reply of rows is made of.

ghost use Rattle.std.specs.Prelude.{◌≡◌, map, IfOk};
ghost use Rattle.pgw_messages.specs.ColumnViews.{column_of};
ghost use Rattle.session_model.specs.Texts as text;

use pgw_frames::{Frame, NoMemory, Text};
use pgw_messages::{BackMsg, Column, ColumnView, row_frame};
use std::alloc::Global;

/// A type's number and its size in bytes, as RowDescription has them. The size is negative where
/// values have no one size.
#[derive(Clone, Copy)]
pub struct ColumnType {
    pub number: u32,
    pub size: i16,
}

pub const BOOLEAN: ColumnType = ColumnType {
    number: 16,
    size: 1,
};

pub const TEXT: ColumnType = ColumnType {
    number: 25,
    size: -1,
};

/// A column of no table, in text.
pub fn column(alloc: Global, name: &str, of: ColumnType) -> Result<Column, NoMemory>
    ensures { IfOk result (λ c. c ≡ text.column name.now of.number of.size) }
{
    Ok(Column {
        name: Text::of(alloc, name)?,
        table: 0,
        column: 0,
        kind: of.number,
        size: of.size,
        modifier: -1,
        format: 0,
    })
}

/// A column of no table, in text, whose name is lent.
pub(crate) fn lent_column(name: &str, of: ColumnType) -> ColumnView<'_>
    ensures { column_of result ≡ text.column name.now of.number of.size }
{
    ColumnView {
        name,
        table: 0,
        column: 0,
        kind: of.number,
        size: of.size,
        modifier: -1,
        format: 0,
    }
}

/// A DataRow of these values, none of which is NULL.
pub fn row(alloc: Global, values: &[&[u8]]) -> Result<Frame, NoMemory>
    ensures { IfOk result (λ f. f ≡ text.row (map (λ v. v.now) values.now)) }
{
    row_frame(alloc, values)
}

/// A CommandComplete with this tag.
pub fn complete(alloc: Global, tag: &str) -> Result<Frame, NoMemory>
    ensures { IfOk result (λ f. f ≡ text.complete tag.now) }
{
    // With room for the zero byte that ends it.
    let mut words = String::with_capacity(alloc, tag.len().saturating_add(1))?;
    words.push_str(tag)?;
    BackMsg::Complete(Text::from_string(words)).into_frame(alloc)
}

/// A ReadyForQuery. The status is `I` outside a transaction, `T` inside one, `E` in a failed one.
pub fn ready(alloc: Global, status: u8) -> Result<Frame, NoMemory>
    ensures { IfOk result (λ f. f ≡ text.ready status) }
{
    BackMsg::Ready(status).into_frame(alloc)
}
