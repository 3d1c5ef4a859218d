//! The operations of statements, by the parts of a statement. The texts are those of its parameters.

ghost use Rattle.std.specs.Prelude.{◌≡◌, map, IfOk};
ghost use Rattle.mini_store.specs.declared.op.Op.TheVariants as op;
ghost use Rattle.mini_kind.specs.Running.{filtering, given_of, matching};

use crate::copies;
use crate::values::{filter_of, givens, match_of};
use mini_store::{GivenRows, Op};
use pgw_frames::{NoMemory, Text};
use sql_text::{ColumnDef, Equal, Value};
use std::alloc::Global;

/// Makes a table.
pub fn create(alloc: Global, table: &str, columns: &[ColumnDef]) -> Result<Op, NoMemory>
    ensures { IfOk result (λ o. o ≡ op.Create table.now columns.now) }
{
    let columns = copies::copy_columns(alloc, columns)?;
    let table = Text::of(alloc, table)?;
    Ok(Op::Create { table, columns })
}

/// Adds a row of these values.
pub fn insert(alloc: Global, table: &str, values: &[Value], texts: &[Text]) -> Result<Op, NoMemory>
    ensures { IfOk result (λ o. o ≡ op.Insert table.now (map (given_of texts.now) values.now)) }
{
    let values = givens(alloc, texts, values)?;
    let table = Text::of(alloc, table)?;
    Ok(Op::Insert { table, values })
}

/// Asks for the rows that the filter takes. No names stand for all columns.
pub fn select(
    alloc: Global,
    table: &str,
    names: &[Text],
    filter: &Option<Equal>,
    texts: &[Text],
) -> Result<Op, NoMemory>
    ensures { IfOk result (λ o. o ≡ op.Select table.now names.now (filtering texts.now filter.now)) }
{
    let filter = filter_of(alloc, texts, filter)?;
    let names = copies::copy_names(alloc, names)?;
    let table = Text::of(alloc, table)?;
    Ok(Op::Select {
        table,
        names,
        filter,
    })
}

/// Changes a column in the rows that the filter takes.
pub fn update(
    alloc: Global,
    table: &str,
    change: &Equal,
    filter: &Option<Equal>,
    texts: &[Text],
) -> Result<Op, NoMemory>
    ensures { IfOk result (λ o. o ≡ op.Update table.now (matching texts.now change.now) (filtering texts.now filter.now)) }
{
    let change = match_of(alloc, texts, change)?;
    let filter = filter_of(alloc, texts, filter)?;
    let table = Text::of(alloc, table)?;
    Ok(Op::Update {
        table,
        change,
        filter,
    })
}

/// Deletes the rows that the filter takes.
pub fn delete(
    alloc: Global,
    table: &str,
    filter: &Option<Equal>,
    texts: &[Text],
) -> Result<Op, NoMemory>
    ensures { IfOk result (λ o. o ≡ op.Delete table.now (filtering texts.now filter.now)) }
{
    let filter = filter_of(alloc, texts, filter)?;
    let table = Text::of(alloc, table)?;
    Ok(Op::Delete { table, filter })
}

/// Adds these rows.
pub fn copy_in(alloc: Global, table: &str, rows: GivenRows) -> Result<Op, NoMemory>
    ensures { IfOk result (λ o. o ≡ op.CopyIn table.now rows) }
{
    let table = Text::of(alloc, table)?;
    Ok(Op::CopyIn { table, rows })
}

/// Asks for a table's columns.
pub fn shape(alloc: Global, table: &str) -> Result<Op, NoMemory>
    ensures { IfOk result (λ o. o ≡ op.Shape table.now) }
{
    let table = Text::of(alloc, table)?;
    Ok(Op::Shape { table })
}
