//! Given values as values of a table.

ghost use Rattle.std.specs.Prelude.{◌≡◌, length, ◌==◌, List};
ghost use Rattle.std.specs.List.{list_all, list_any};
ghost use Rattle.mini_store.specs.Answers.{Gives};
ghost use Rattle.mini_store.specs.Values.{datum_of, has_no_number, is_no_number, number_datum, row_of, rows_of};
ghost use Rattle.mini_store.specs.Operations.{filter_no_number, hit_of, new_rows};

use crate::code::SqlCode;
use crate::columns::Column;
use crate::datum::{Datum, DatumRow, Given, GivenList, Match};
use crate::fault::{Fault, must};
use crate::row::{Hit, StoredRow};
use pgw_frames::Text;
use pgw_messages::Items;
use sql_text::{ColumnDef, Kind, read_number};
use std::alloc::Global;

fn number_datum(number: Option<i64>) -> Result<Datum, Fault>
    ensures { Gives result (number_datum number) }
{
    match number {
        Some(n) => Ok(Datum::Number(n)),
        None => Err(Fault::Bad(SqlCode::InvalidTextRepresentation)),
    }
}

/// A given value under a column of this kind.
pub(crate) fn datum_of(alloc: Global, kind: Kind, given: &Given) -> Result<Datum, Fault>
    ensures { Gives result (datum_of kind given.now) }
{
    match kind {
        Kind::Int => match given {
            Given::Number(n) => Ok(Datum::Number(*n)),
            Given::Text(_) => Err(Fault::Bad(SqlCode::DatatypeMismatch)),
            Given::Bound(t) => number_datum(read_number(t.as_str())),
        },
        Kind::Text => match given {
            Given::Number(_) => Err(Fault::Bad(SqlCode::DatatypeMismatch)),
            Given::Text(t) => Ok(Datum::Text(Text::of(alloc, t.as_str())?)),
            Given::Bound(t) => Ok(Datum::Text(Text::of(alloc, t.as_str())?)),
        },
    }
}

/// Whether this is a parameter's text that is to be a number, and is none.
pub(crate) fn is_no_number(kind: Kind, given: &Given) -> bool
    ensures { result ≡ is_no_number kind given.now }
{
    match kind {
        Kind::Int => match given {
            Given::Number(_) => false,
            Given::Text(_) => false,
            Given::Bound(t) => read_number(t.as_str()).is_none(),
        },
        Kind::Text => false,
    }
}

pub(crate) fn filter_no_number(column: Option<Column>, filter: &Option<Match>) -> bool
    ensures { result ≡ filter_no_number column filter.now }
{
    match column {
        None => false,
        Some(c) => match filter {
            None => false,
            Some(m) => is_no_number(c.kind, &m.value),
        },
    }
}

/// What a filter asks of a row.
pub(crate) fn hit_of(
    alloc: Global,
    column: Option<Column>,
    filter: &Option<Match>,
) -> Result<Option<Hit>, Fault>
    ensures { Gives result (hit_of column filter.now) }
{
    match column {
        None => Ok(None),
        Some(c) => match filter {
            None => Ok(None),
            Some(m) => {
                let value = datum_of(alloc, c.kind, &m.value)?;
                Ok(Some(Hit {
                    place: c.place,
                    value,
                }))
            }
        },
    }
}

fn has_no_number(columns: &[ColumnDef], givens: &[Given]) -> bool
    ensures { result ≡ has_no_number columns.now givens.now }
{
    let mut rest = givens;
    for column in columns {
        let Some((given, behind)) = rest.split_first() else {
            return false;
        };
        if is_no_number(column.kind, given) {
            return true;
        }
        rest = behind;
    }
    false
}

fn any_no_number(columns: &[ColumnDef], rows: &[GivenList]) -> bool
    ensures { result ≡ list_any (has_no_number columns.now) rows.now }
{
    rows.iter()
        .any(|row| has_no_number(columns, row.as_slice()))
}

fn are_full(columns: &[ColumnDef], rows: &[GivenList]) -> bool
    ensures { result ≡ list_all (λ (r : List Given). length r == length columns.now) rows.now }
{
    rows.iter().all(|row| row.len() == columns.len())
}

fn row_of(alloc: Global, columns: &[ColumnDef], givens: &[Given]) -> Result<DatumRow, Fault>
    ensures { Gives result (row_of columns.now givens.now) }
{
    let mut row = Items::new(alloc);
    let mut rest = givens;
    for column in columns {
        let Some((given, behind)) = rest.split_first() else {
            return Ok(row);
        };
        let datum = datum_of(alloc, column.kind, given)?;
        row.push(datum)?;
        rest = behind;
    }
    Ok(row)
}

fn rows_of(
    alloc: Global,
    columns: &[ColumnDef],
    rows: &[GivenList],
) -> Result<Items<StoredRow>, Fault>
    ensures { Gives result (rows_of columns.now rows.now) }
{
    let mut out = Items::new(alloc);
    for givens in rows {
        let row = row_of(alloc, columns, givens.as_slice())?;
        out.push(StoredRow::make(alloc, row)?)?;
    }
    Ok(out)
}

/// New rows for a table of these columns; `fits` says that the store has room for them.
pub(crate) fn new_rows(
    alloc: Global,
    fits: bool,
    columns: &[ColumnDef],
    rows: &[GivenList],
) -> Result<Items<StoredRow>, Fault>
    ensures { Gives result (new_rows fits columns.now rows.now) }
{
    must(SqlCode::ProgramLimitExceeded, fits)?;
    must(SqlCode::SyntaxError, are_full(columns, rows))?;
    must(
        SqlCode::InvalidTextRepresentation,
        !any_no_number(columns, rows),
    )?;
    rows_of(alloc, columns, rows)
}
