//! The messages that a result is made of.

ghost use Rattle.std.specs.Prelude.{◌≡◌, ◌++◌, ◌∷◌, [], decimal, IfOk};
ghost use Rattle.session_model.specs.Texts as text;
ghost use Rattle.mini_store.specs.declared.datum.Datum.TheVariants as datum;
ghost use Rattle.mini_kind.specs.Replies as reply;

use itoa::Buffer;
use mini_store::Datum;
use pgw_frames::{Bytes, Frame, NoMemory, Text};
use pgw_messages::{BackMsg, Column, Columns, CopyMsg, Formats, Items, Types};
use session_model::{ColumnType, TEXT, column, row};
use sql_text::{ColumnDef, Kind};
use std::alloc::Global;

const INT: ColumnType = ColumnType {
    number: 20,
    size: 8,
};

fn column_of(alloc: Global, def: &ColumnDef) -> Result<Column, NoMemory>
    ensures { IfOk result (λ c. c ≡ reply.column_of def.now) }
{
    match def.kind {
        Kind::Int => column(alloc, def.name.as_str(), INT),
        Kind::Text => column(alloc, def.name.as_str(), TEXT),
    }
}

/// A RowDescription of these columns.
pub fn row_columns(alloc: Global, defs: &[ColumnDef]) -> Result<Frame, NoMemory>
    ensures { IfOk result (λ f. f ≡ reply.columns_frame defs.now) }
{
    let mut columns = Columns::new(alloc);
    for def in defs {
        columns.push(column_of(alloc, def)?)?;
    }
    BackMsg::Columns(columns).into_frame(alloc)
}

/// A number in decimal.
fn number_bytes(alloc: Global, n: i64) -> Result<Bytes, NoMemory>
    ensures { IfOk result (λ b. b ≡ reply.datum_text (datum.Number n)) }
{
    let mut buffer = Buffer::new();
    Bytes::of(alloc, buffer.format(n).as_bytes())
}

fn datum_bytes(alloc: Global, datum: &Datum) -> Result<Bytes, NoMemory>
    ensures { IfOk result (λ b. b ≡ reply.datum_text datum.now) }
{
    match datum {
        Datum::Number(n) => number_bytes(alloc, *n),
        Datum::Text(t) => Bytes::of(alloc, t.as_str().as_bytes()),
    }
}

/// A DataRow of these values.
pub fn data_row(alloc: Global, values: &[Datum]) -> Result<Frame, NoMemory>
    ensures { IfOk result (λ f. f ≡ reply.row_frame values.now) }
{
    let mut row = Vec::with_capacity(alloc, values.len())?;
    for value in values {
        row.push(Some(datum_bytes(alloc, value)?))?;
    }
    BackMsg::Row(Items::from_vec(row)).into_frame(alloc)
}

/// A DataRow of one text.
pub fn one_value(alloc: Global, value: &str) -> Result<Frame, NoMemory>
    ensures { IfOk result (λ f. f ≡ text.row (value.now ∷ [])) }
{
    row(alloc, &[value.as_bytes()])
}

/// A CommandComplete whose tag ends in a count.
pub fn counted(alloc: Global, word: &str, count: u64) -> Result<Frame, NoMemory>
    ensures { IfOk result (λ f. f ≡ reply.counted word.now count) }
{
    let mut buffer = Buffer::new();
    let mut tag = String::with_capacity(alloc, 32)?;
    tag.push_str(word)?;
    tag.push_str(buffer.format(count))?;
    BackMsg::Complete(Text::from_string(tag)).into_frame(alloc)
}

/// A CopyInResponse: a copy in text, of so many columns.
pub fn copy_in(alloc: Global, width: usize) -> Result<Frame, NoMemory>
    ensures { IfOk result (λ f. f ≡ reply.copy_in width) }
{
    let formats: Vec<u16> = Vec::from_elem(alloc, 0, width)?;
    let copy = CopyMsg {
        format: 0,
        formats: Formats::from_vec(formats),
    };
    BackMsg::CopyIn(copy).into_frame(alloc)
}

/// A ParameterDescription of these types.
pub fn param_types(alloc: Global, types: &[u32]) -> Result<Frame, NoMemory>
    ensures { IfOk result (λ f. f ≡ reply.param_types types.now) }
{
    let types = Types::from_vec(Vec::from_slice(alloc, types)?);
    BackMsg::ParamTypes(types).into_frame(alloc)
}
