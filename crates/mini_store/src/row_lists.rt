//! Rows of a page, as lists.

ghost use Rattle.std.specs.Prelude.{◌≡◌, ◌++◌, filter, length, map, IfOk, OnOk};
ghost use Rattle.std.specs.List.{position};
ghost use Rattle.std.specs.Ordering.{is_lt};
ghost use Rattle.mini_store.specs.Values.{changed, hits, misses, picked, placed, row_order};

use crate::datum::{Datum, DatumRows};
use crate::row::{Hit, StoredRow};
use pgw_frames::NoMemory;
use std::alloc::Global;

pub(crate) fn share_rows(alloc: Global, rows: &[StoredRow]) -> Result<Vec<StoredRow>, NoMemory>
    ensures { IfOk result (λ rs. rs.items ≡ rows.now) }
{
    let mut shared = Vec::with_capacity(alloc, rows.len())?;
    for row in rows {
        shared.push(row.share()?)?;
    }
    Ok(shared)
}

pub(crate) fn count_rows(rows: &[StoredRow], hit: &Option<Hit>) -> usize
    ensures { result ≡ length (filter (hits hit.now) rows.now) }
{
    let mut count = 0;
    for row in rows {
        if row.is_hit(hit) {
            count += 1;
        }
    }
    count
}

pub(crate) fn pick_rows(
    alloc: Global,
    rows: &[StoredRow],
    places: &[usize],
    hit: &Option<Hit>,
    out: &mut DatumRows,
) -> Result<(), NoMemory>
    ensures { OnOk result (out.new ≡ out.old ++ map (picked places.now) (filter (hits hit.now) rows.now)) }
{
    for row in rows {
        if row.is_hit(hit) {
            out.push(row.picked(alloc, places)?)?;
        }
    }
    Ok(())
}

pub(crate) fn rows_without(
    alloc: Global,
    rows: &[StoredRow],
    hit: &Option<Hit>,
) -> Result<Vec<StoredRow>, NoMemory>
    ensures { IfOk result (λ rs. rs.items ≡ filter (misses hit.now) rows.now) }
{
    let mut left = Vec::new(alloc);
    for row in rows {
        if row.is_missed(hit) {
            left.push(row.share()?)?;
        }
    }
    Ok(left)
}

/// Adds the rows, those that are hit with another value at this place.
pub(crate) fn change_rows(
    alloc: Global,
    rows: &[StoredRow],
    place: usize,
    value: &Datum,
    hit: &Option<Hit>,
    out: &mut Vec<StoredRow>,
) -> Result<(), NoMemory>
    ensures { OnOk result (out.new.items ≡ out.old.items ++ map (changed place value.now hit.now) rows.now) }
{
    for row in rows {
        out.push(row.changed(alloc, place, value, hit)?)?;
    }
    Ok(())
}

/// The place of the first row of a greater key.
fn place_above(rows: &[StoredRow], row: &StoredRow) -> Option<usize>
    ensures { result ≡ position (λ s. is_lt (row_order row.now s)) rows.now }
{
    rows.iter().position(|other| row.is_below(other))
}

/// Puts a row before the first one of a greater key.
pub(crate) fn place_row(rows: &mut Vec<StoredRow>, row: StoredRow) -> Result<(), NoMemory>
    ensures { OnOk result (rows.new.items ≡ placed row rows.old.items) }
{
    match place_above(rows, &row) {
        Some(place) => rows.insert(place, row)?,
        None => rows.push(row)?,
    }
    Ok(())
}
