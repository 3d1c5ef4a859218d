//! The columns of a table.

ghost use Rattle.std.specs.Prelude.{◌≡◌, ◌++◌, IfOk, OnOk, slice_get};
ghost use Rattle.std.specs.Option.{option_copied, option_to_list};
ghost use Rattle.mini_store.specs.Answers.{Gives};
ghost use Rattle.mini_store.specs.Values.{column_of, picked};
ghost use Rattle.mini_store.specs.Operations.{filter_column, named_places, places_from, places_of};

use crate::code::SqlCode;
use crate::datum::Match;
use crate::fault::Fault;
use pgw_frames::{NoMemory, Text};
use pgw_messages::Items;
use sql_text::{ColumnDef, ColumnDefs, Kind};
use std::alloc::Global;

/// A column by its place, counted from 0; the first is the key.
#[derive(Clone, Copy, Debug, PartialEq, Eq)]
pub(crate) struct Column {
    pub(crate) place: usize,
    pub(crate) kind: Kind,
}

pub(crate) type Places = Items<usize>;

/// The first column of this name.
pub(crate) fn column_of(columns: &[ColumnDef], name: &str) -> Result<Column, Fault>
    ensures { Gives result (column_of columns.now name.now) }
{
    let mut place = 0;
    for column in columns {
        if column.name.as_str() == name {
            return Ok(Column {
                place,
                kind: column.kind,
            });
        }
        place += 1;
    }
    Err(Fault::Bad(SqlCode::UndefinedColumn))
}

pub(crate) fn filter_column(
    columns: &[ColumnDef],
    filter: &Option<Match>,
) -> Result<Option<Column>, Fault>
    ensures { Gives result (filter_column columns.now filter.now) }
{
    match filter {
        None => Ok(None),
        Some(m) => {
            let column = column_of(columns, m.column.as_str())?;
            Ok(Some(column))
        }
    }
}

/// The places of all columns.
fn all_places(alloc: Global, columns: &[ColumnDef]) -> Result<Places, NoMemory>
    ensures { IfOk result (λ ps. ps ≡ places_from 0 columns.now) }
{
    let mut places = Items::new(alloc);
    let mut place = 0;
    for _column in columns {
        places.push(place)?;
        place += 1;
    }
    Ok(places)
}

fn named_places(alloc: Global, columns: &[ColumnDef], names: &[Text]) -> Result<Places, Fault>
    ensures { Gives result (named_places columns.now names.now) }
{
    let mut places = Items::new(alloc);
    for name in names {
        let column = column_of(columns, name.as_str())?;
        places.push(column.place)?;
    }
    Ok(places)
}

/// The places of the columns of these names, or of all where there are none.
pub(crate) fn places_of(
    alloc: Global,
    columns: &[ColumnDef],
    names: &[Text],
) -> Result<Places, Fault>
    ensures { Gives result (places_of columns.now names.now) }
{
    match names.split_first() {
        None => Ok(all_places(alloc, columns)?),
        Some(_) => named_places(alloc, columns, names),
    }
}

fn copy_column(alloc: Global, column: &ColumnDef) -> Result<ColumnDef, NoMemory>
    ensures { IfOk result (λ c. c ≡ column.now) }
{
    Ok(ColumnDef {
        name: Text::of(alloc, column.name.as_str())?,
        kind: column.kind,
    })
}

pub(crate) fn copy_columns(alloc: Global, columns: &[ColumnDef]) -> Result<ColumnDefs, NoMemory>
    ensures { IfOk result (λ cs. cs ≡ columns.now) }
{
    let mut copies = Items::new(alloc);
    for column in columns {
        copies.push(copy_column(alloc, column)?)?;
    }
    Ok(copies)
}

fn column_at(columns: &[ColumnDef], place: usize) -> Option<&ColumnDef>
    ensures { option_copied result ≡ slice_get columns.now place }
{
    columns.get(place)
}

/// Adds a copy of a column that may be there.
fn push_copy(
    alloc: Global,
    columns: &mut ColumnDefs,
    column: Option<&ColumnDef>,
) -> Result<(), NoMemory>
    ensures { OnOk result (columns.new ≡ columns.old ++ option_to_list (option_copied column.entry)) }
{
    match column {
        None => Ok(()),
        Some(c) => {
            columns.push(copy_column(alloc, c)?)?;
            Ok(())
        }
    }
}

/// The columns at these places.
pub(crate) fn picked_columns(
    alloc: Global,
    places: &[usize],
    columns: &[ColumnDef],
) -> Result<ColumnDefs, NoMemory>
    ensures { IfOk result (λ cs. cs ≡ picked places.now columns.now) }
{
    let mut copies = Items::new(alloc);
    for place in places {
        push_copy(alloc, &mut copies, column_at(columns, *place))?;
    }
    Ok(copies)
}
