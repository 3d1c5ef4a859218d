//! Pages: portions of a table's rows, which copies of the table share.

ghost use Rattle.std.specs.Prelude.{◌≡◌, ◌<◌, ◌++◌, false, filter, length, map, nat_lt, true, IfOk, OnOk, slice_get};
ghost use Rattle.std.specs.List.{list_any, position};
ghost use Rattle.std.specs.Option.{option_copied};
ghost use Rattle.std.specs.Ordering.{is_lt};
ghost use Rattle.mini_store.specs.Pages.{has_above, last_of};
ghost use Rattle.mini_store.specs.Rising.{Rises};
ghost use Rattle.mini_store.specs.Values.{changed, has_key, hits, misses, picked, placed, row_order};

use crate::datum::{Datum, DatumRows};
use crate::row::{Hit, StoredRow, row_order};
use crate::row_lists::{change_rows, count_rows, pick_rows, place_row, rows_without, share_rows};
use pgw_frames::NoMemory;
use std::alloc::Global;
use std::marker::Model;
use std::sync::Arc;

/// A page with more rows is halved.
const PAGE_ROWS: usize = 256;

/// Rows that rise by their keys. Contracts see the list.
#[derive(Drop)]
pub(crate) struct Page {
    rows: Arc<Vec<StoredRow>>,
}

impl Model for Page {
    ghost use Rattle.std.specs.Prelude.{List};
    ghost use Rattle.std.specs.Arc.{arc_value};
    ghost use Rattle.mini_store.specs.Rising.{Rises};
    ghost use Rattle.mini_store.specs.declared.datum.Datum.{Datum};

    ghost Value = { List (List Datum) };

    ghost view = { λ p. (arc_value p.rows).items };

    ghost invariant = { λ p. Rises (arc_value p.rows).items };
}

impl Page {
    pub(crate) fn make(alloc: Global, rows: Vec<StoredRow>) -> Result<Page, NoMemory>
        requires { Rises rows.items }
        ensures { IfOk result (λ p. p ≡ rows.items) }
    {
        Ok(Page {
            rows: Arc::new(alloc, rows)?,
        })
    }

    /// The same page once more, without a copy of its rows.
    pub(crate) fn share(&self) -> Result<Page, NoMemory>
        ensures { IfOk result (λ p. p ≡ self.now) }
    {
        Ok(Page {
            rows: Arc::try_clone(&self.rows)?,
        })
    }

    pub(crate) fn rows(&self) -> &[StoredRow]
        ensures rows { result.now ≡ self.now }
        ensures rises { Rises self.now }
    {
        self.rows.as_slice()
    }

    pub(crate) fn len(&self) -> usize
        ensures { result ≡ length self.now }
    {
        self.rows().len()
    }

    pub(crate) fn is_full(&self) -> bool
        ensures { result ≡ nat_lt 256 (length self.now) }
    {
        self.len() > PAGE_ROWS
    }

    #[tactic(auto, using(crate::proofs::Ends::last_is))]
    fn last(&self) -> Option<&StoredRow>
        ensures last { option_copied result ≡ last_of self.now }
        ensures rises { Rises self.now }
    {
        self.rows().last()
    }

    /// Whether the first row has a greater key, or there is none.
    #[tactic(auto, using(crate::proofs::Ends::begins_above, crate::proofs::Ends::begins_nowhere))]
    fn begins_above(&self, key: &[Datum]) -> bool
        ensures { result ≡ true → has_key key.now self.now ≡ false }
    {
        match self.rows().first() {
            None => true,
            Some(first) => row_order(key, first.values()).is_lt(),
        }
    }

    /// Whether the last row has a lesser key, or there is none.
    #[tactic(auto, using(crate::proofs::Ends::ends_below, crate::proofs::Ends::ends_nowhere))]
    fn ends_below(&self, key: &[Datum]) -> bool
        ensures { result ≡ true → has_key key.now self.now ≡ false }
    {
        match self.last() {
            None => true,
            Some(last) => row_order(last.values(), key).is_lt(),
        }
    }

    /// Whether a row has this key.
    pub(crate) fn has_key(&self, key: &[Datum]) -> bool
        ensures { result ≡ has_key key.now self.now }
    {
        if self.begins_above(key) {
            return false;
        }
        if self.ends_below(key) {
            return false;
        }
        self.rows()
            .iter()
            .any(|row| row_order(key, row.values()).is_eq())
    }

    /// Whether a row has a greater key than this one.
    #[tactic(auto, using(crate::proofs::Ends::above_is, crate::proofs::Ends::above_nowhere))]
    pub(crate) fn has_above(&self, row: &StoredRow) -> bool
        ensures { result ≡ has_above row.now self.now }
    {
        match self.last() {
            None => false,
            Some(last) => row.is_below(last),
        }
    }

    /// Whether a row may be hit; one that is looked for by its key is.
    #[tactic(auto, using(crate::proofs::Ends::key_hits_at))]
    fn may_be_hit(&self, hit: &Option<Hit>) -> bool
        ensures { result ≡ false → list_any (hits hit.now) self.now ≡ false }
    {
        match hit {
            None => true,
            Some(h) => match h.place {
                0 => self.has_key(std::slice::from_ref(&h.value)),
                _ => true,
            },
        }
    }

    /// How many rows are hit.
    #[tactic(auto, using(crate::proofs::Paged::none_kept))]
    pub(crate) fn count(&self, hit: &Option<Hit>) -> usize
        ensures { result ≡ length (filter (hits hit.now) self.now) }
    {
        if !self.may_be_hit(hit) {
            return 0;
        }
        count_rows(self.rows(), hit)
    }

    /// Adds the values at these places, of each row that is hit.
    #[tactic(auto, using(crate::proofs::Paged::none_kept))]
    pub(crate) fn pick(
        &self,
        alloc: Global,
        places: &[usize],
        hit: &Option<Hit>,
        out: &mut DatumRows,
    ) -> Result<(), NoMemory>
        ensures { OnOk result (out.new ≡ out.old ++ map (picked places.now) (filter (hits hit.now) self.now)) }
    {
        if !self.may_be_hit(hit) {
            return Ok(());
        }
        pick_rows(alloc, self.rows(), places, hit, out)
    }

    /// The rows that aren't hit.
    #[tactic(auto, using(crate::proofs::Paged::none_left_out, crate::proofs::Keeps::rises_filtered))]
    pub(crate) fn without(&self, alloc: Global, hit: &Option<Hit>) -> Result<Page, NoMemory>
        ensures { IfOk result (λ p. p ≡ filter (misses hit.now) self.now) }
    {
        if !self.may_be_hit(hit) {
            return Ok(self.share()?);
        }
        let rows = rows_without(alloc, self.rows(), hit)?;
        Ok(Page::make(alloc, rows)?)
    }

    /// The rows, those that are hit with another value at this place, which isn't the key's.
    #[tactic(auto, using(crate::proofs::Paged::none_changed, crate::proofs::Keeps::rises_changed_at))]
    pub(crate) fn changed(
        &self,
        alloc: Global,
        place: usize,
        value: &Datum,
        hit: &Option<Hit>,
    ) -> Result<Page, NoMemory>
        requires { 0 < place }
        ensures { IfOk result (λ p. p ≡ map (changed place value.now hit.now) self.now) }
    {
        if !self.may_be_hit(hit) {
            return Ok(self.share()?);
        }
        let mut rows = Vec::new(alloc);
        change_rows(alloc, self.rows(), place, value, hit, &mut rows)?;
        Page::make(alloc, rows)
    }

    /// The rows with one more at its place.
    #[tactic(auto, using(crate::proofs::Keeps::rises_placed))]
    pub(crate) fn with(&self, alloc: Global, row: StoredRow) -> Result<Page, NoMemory>
        requires { has_key row self.now ≡ false }
        ensures { IfOk result (λ p. p ≡ placed row self.now) }
    {
        let mut rows = share_rows(alloc, self.rows())?;
        place_row(&mut rows, row)?;
        Page::make(alloc, rows)
    }

    /// The rows in two pages.
    #[tactic(auto, using(crate::proofs::Keeps::rises_front, crate::proofs::Keeps::rises_back))]
    pub(crate) fn halves(&self, alloc: Global) -> Result<(Page, Page), NoMemory>
        ensures { IfOk result (λ p. p.0 ++ p.1 ≡ self.now) }
    {
        let rows = self.rows();
        let (front, back) = rows.split_at(rows.len() / 2);
        let front = Page::make(alloc, share_rows(alloc, front)?)?;
        let back = Page::make(alloc, share_rows(alloc, back)?)?;
        Ok((front, back))
    }
}
