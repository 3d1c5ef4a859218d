//! Rows.

ghost use Rattle.std.specs.Prelude.{◌≡◌, ◌++◌, IfOk, OnOk, slice_get, slice_set};
ghost use Rattle.std.specs.Option.{option_copied, option_to_list};
ghost use Rattle.std.specs.Ordering.{is_eq, is_lt};
ghost use Rattle.mini_store.specs.Values.{changed, hits, misses, picked, row_order};

use crate::datum::{Datum, DatumRow};
use pgw_frames::NoMemory;
use pgw_messages::Items;
use std::alloc::Global;
use std::cmp::Ordering;
use std::marker::Model;
use std::sync::Arc;

/// What a filter asks of a row: this value at this place.
#[derive(Debug, Drop)]
pub(crate) struct Hit {
    pub(crate) place: usize,
    pub(crate) value: Datum,
}

/// A row that tables share. Contracts see it as its values.
#[derive(Drop)]
pub(crate) struct StoredRow {
    values: Arc<DatumRow>,
}

impl Model for StoredRow {
    ghost use Rattle.std.specs.Prelude.{List};
    ghost use Rattle.std.specs.Arc.{arc_value};
    ghost use Rattle.mini_store.specs.declared.datum.Datum.{Datum};

    ghost Value = { List Datum };

    ghost view = { λ r. arc_value r.values };
}

impl StoredRow {
    pub(crate) fn make(alloc: Global, values: DatumRow) -> Result<StoredRow, NoMemory>
        ensures { IfOk result (λ r. r ≡ values) }
    {
        Ok(StoredRow {
            values: Arc::new(alloc, values)?,
        })
    }

    /// The same row once more, without a copy of its values.
    pub(crate) fn share(&self) -> Result<StoredRow, NoMemory>
        ensures { IfOk result (λ r. r ≡ self.now) }
    {
        Ok(StoredRow {
            values: Arc::try_clone(&self.values)?,
        })
    }

    pub(crate) fn values(&self) -> &[Datum]
        ensures { result.now ≡ self.now }
    {
        self.values.as_slice()
    }

    fn value(&self, place: usize) -> Option<&Datum>
        ensures { option_copied result ≡ slice_get self.now place }
    {
        self.values().get(place)
    }

    /// By the first values, which are the keys.
    pub(crate) fn order(&self, other: &StoredRow) -> Ordering
        ensures { result ≡ row_order self.now other.now }
    {
        row_order(self.values(), other.values())
    }

    pub(crate) fn has_key_of(&self, other: &StoredRow) -> bool
        ensures { result ≡ is_eq (row_order self.now other.now) }
    {
        self.order(other).is_eq()
    }

    pub(crate) fn is_below(&self, other: &StoredRow) -> bool
        ensures { result ≡ is_lt (row_order self.now other.now) }
    {
        self.order(other).is_lt()
    }

    pub(crate) fn is_hit(&self, hit: &Option<Hit>) -> bool
        ensures { result ≡ hits hit.now self.now }
    {
        match hit {
            None => true,
            Some(h) => match self.value(h.place) {
                None => false,
                Some(datum) => datum.is_same(&h.value),
            },
        }
    }

    pub(crate) fn is_missed(&self, hit: &Option<Hit>) -> bool
        ensures { result ≡ misses hit.now self.now }
    {
        match hit {
            None => false,
            Some(h) => match self.value(h.place) {
                None => true,
                Some(datum) => !datum.is_same(&h.value),
            },
        }
    }

    fn copy(&self, alloc: Global) -> Result<DatumRow, NoMemory>
        ensures { IfOk result (λ r. r ≡ self.now) }
    {
        let mut row = Items::new(alloc);
        let values = self.values();
        for datum in values {
            row.push(datum.copy(alloc)?)?;
        }
        Ok(row)
    }

    /// The values at these places.
    pub(crate) fn picked(&self, alloc: Global, places: &[usize]) -> Result<DatumRow, NoMemory>
        ensures { IfOk result (λ r. r ≡ picked places.now self.now) }
    {
        let mut row = Items::new(alloc);
        for place in places {
            push_copy(alloc, &mut row, self.value(*place))?;
        }
        Ok(row)
    }

    /// The row with another value at this place.
    fn with(&self, alloc: Global, place: usize, value: &Datum) -> Result<StoredRow, NoMemory>
        ensures { IfOk result (λ r. r ≡ slice_set self.now place value.now) }
    {
        let mut row = self.copy(alloc)?.into_vec();
        let value = value.copy(alloc)?;
        if let Some(datum) = row.get_mut(place) {
            *datum = value;
        }
        StoredRow::make(alloc, Items::from_vec(row))
    }

    /// The row with another value at this place, where it is hit.
    pub(crate) fn changed(
        &self,
        alloc: Global,
        place: usize,
        value: &Datum,
        hit: &Option<Hit>,
    ) -> Result<StoredRow, NoMemory>
        ensures { IfOk result (λ r. r ≡ changed place value.now hit.now self.now) }
    {
        if self.is_hit(hit) {
            self.with(alloc, place, value)
        } else {
            self.share()
        }
    }
}

/// Adds a copy of a value that may be there.
fn push_copy(alloc: Global, row: &mut DatumRow, datum: Option<&Datum>) -> Result<(), NoMemory>
    ensures { OnOk result (row.new ≡ row.old ++ option_to_list (option_copied datum.entry)) }
{
    match datum {
        None => Ok(()),
        Some(d) => {
            row.push(d.copy(alloc)?)?;
            Ok(())
        }
    }
}

pub(crate) fn row_order(a: &[Datum], b: &[Datum]) -> Ordering
    ensures { result ≡ row_order a.now b.now }
{
    match a.split_first() {
        None => match b.split_first() {
            None => Ordering::Equal,
            Some(_) => Ordering::Less,
        },
        Some((d, _)) => match b.split_first() {
            None => Ordering::Greater,
            Some((e, _)) => d.order(e),
        },
    }
}
