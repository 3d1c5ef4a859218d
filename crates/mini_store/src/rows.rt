//! The rows of a table, in rising key order.

ghost use Rattle.std.specs.Prelude.{◌≡◌, ◌<◌, [], ◌∷◌, ◌++◌, None, false, filter, length, map, min, set, get_or, IfOk, IfSome, OnOk};
ghost use Rattle.std.specs.List.{list_any, position};
ghost use Rattle.mini_store.specs.Answers.{Gives, Leaves};
ghost use Rattle.mini_store.specs.Operations.{rows_changed};
ghost use Rattle.mini_store.specs.Pages.{has_above, joined};
ghost use Rattle.mini_store.specs.Values.{added, changed, has_key, hits, misses, picked, placed};

use crate::code::SqlCode;
use crate::datum::{Datum, DatumRows};
use crate::fault::Fault;
use crate::page::Page;
use crate::row::{Hit, StoredRow};
use crate::row_lists::change_rows;
use pgw_frames::NoMemory;
use pgw_messages::Items;
use std::alloc::Global;
use std::marker::Model;

/// Rows in pages, which copies share. Contracts see the list.
#[derive(Drop)]
pub(crate) struct Rows {
    pages: Vec<Page>,
}

impl Model for Rows {
    ghost use Rattle.std.specs.Prelude.{List};
    ghost use Rattle.mini_store.specs.Pages.{joined};
    ghost use Rattle.mini_store.specs.declared.datum.Datum.{Datum};

    ghost Value = { List (List Datum) };

    ghost view = { λ r. joined r.pages.items };
}

impl Rows {
    pub(crate) fn new(alloc: Global) -> Rows
        ensures { result ≡ [] }
    {
        Rows {
            pages: Vec::new(alloc),
        }
    }

    /// How many there are; where a `usize` can't say it, the most that it can.
    pub(crate) fn len(&self) -> usize
        ensures { result ≡ min (length self.now) 18446744073709551615 }
    {
        let mut count: usize = 0;
        for page in &self.pages {
            count = count.saturating_add(page.len());
        }
        count
    }

    pub(crate) fn copy(&self, alloc: Global) -> Result<Rows, NoMemory>
        ensures { IfOk result (λ r. r ≡ self.now) }
    {
        let mut pages = Vec::with_capacity(alloc, self.pages.len())?;
        for page in &self.pages {
            pages.push(page.share()?)?;
        }
        Ok(Rows { pages })
    }

    #[tactic(auto, using(crate::proofs::Paged::key_joined))]
    fn has_key(&self, key: &[Datum]) -> bool
        ensures { result ≡ has_key key.now self.now }
    {
        any_has_key(&self.pages, key)
    }

    /// Puts a row at its place. After an error the rows are given up.
    fn add(&mut self, row: StoredRow) -> Result<(), Fault>
        ensures { Leaves result self.new (added self.old (row ∷ [])) }
    {
        if self.has_key(row.values()) {
            return Err(Fault::Bad(SqlCode::UniqueViolation));
        }
        place_row(&mut self.pages, row)?;
        Ok(())
    }

    /// These rows with new ones put among them.
    #[tactic(auto, using(crate::proofs::Adding::added_more, crate::proofs::Adding::added_fails))]
    pub(crate) fn added(&self, alloc: Global, new: &[StoredRow]) -> Result<Rows, Fault>
        ensures { Gives result (added self.now new.now) }
    {
        let mut rows = self.copy(alloc)?;
        for row in new {
            rows.add(row.share()?)?;
        }
        Ok(rows)
    }

    /// How many rows are hit. `NoMemory` where a `usize` can't say it.
    #[tactic(auto, using(crate::proofs::Paged::counted_more))]
    pub(crate) fn count(&self, hit: &Option<Hit>) -> Result<usize, NoMemory>
        ensures { IfOk result (λ n. n ≡ length (filter (hits hit.now) self.now)) }
    {
        let mut count: usize = 0;
        for page in &self.pages {
            count = count.checked_add(page.count(hit)).ok_or(NoMemory)?;
        }
        Ok(count)
    }

    /// The values at these places, of each row that is hit.
    #[tactic(auto, using(crate::proofs::Paged::picked_more))]
    pub(crate) fn picked(
        &self,
        alloc: Global,
        places: &[usize],
        hit: &Option<Hit>,
    ) -> Result<DatumRows, NoMemory>
        ensures { IfOk result (λ rs. rs ≡ map (picked places.now) (filter (hits hit.now) self.now)) }
    {
        let mut picked = Items::new(alloc);
        for page in &self.pages {
            page.pick(alloc, places, hit, &mut picked)?;
        }
        Ok(picked)
    }

    /// The rows that aren't hit.
    #[tactic(auto, using(crate::proofs::Paged::filtered_more, crate::proofs::Paged::joined_push))]
    pub(crate) fn without(&self, alloc: Global, hit: &Option<Hit>) -> Result<Rows, NoMemory>
        ensures { IfOk result (λ rs. rs ≡ filter (misses hit.now) self.now) }
    {
        let mut pages = Vec::new(alloc);
        for page in &self.pages {
            push_page(&mut pages, page.without(alloc, hit)?)?;
        }
        Ok(Rows { pages })
    }

    /// The rows, those that are hit with another value at this place, which isn't the key's.
    #[tactic(auto, using(crate::proofs::Paged::mapped_more, crate::proofs::Paged::joined_push))]
    fn with_values(
        &self,
        alloc: Global,
        place: usize,
        value: &Datum,
        hit: &Option<Hit>,
    ) -> Result<Rows, NoMemory>
        requires { 0 < place }
        ensures { IfOk result (λ rs. rs ≡ map (changed place value.now hit.now) self.now) }
    {
        let mut pages = Vec::with_capacity(alloc, self.pages.len())?;
        for page in &self.pages {
            pages.push(page.changed(alloc, place, value, hit)?)?;
        }
        Ok(Rows { pages })
    }

    /// The rows, those that are hit with another key. Their keys aren't compared.
    #[tactic(auto, using(crate::proofs::Paged::mapped_more))]
    fn with_keys(
        &self,
        alloc: Global,
        value: &Datum,
        hit: &Option<Hit>,
    ) -> Result<Vec<StoredRow>, NoMemory>
        ensures { IfOk result (λ rs. rs.items ≡ map (changed 0 value.now hit.now) self.now) }
    {
        let mut rows = Vec::new(alloc);
        for page in &self.pages {
            change_rows(alloc, page.rows(), 0, value, hit, &mut rows)?;
        }
        Ok(rows)
    }

    /// The rows, those that are hit with another value at this place.
    pub(crate) fn changed(
        &self,
        alloc: Global,
        place: usize,
        value: &Datum,
        hit: &Option<Hit>,
    ) -> Result<Rows, Fault>
        ensures { Gives result (rows_changed place value.now hit.now self.now) }
    {
        match place {
            0 => {
                let rows = self.with_keys(alloc, value, hit)?;
                in_order(alloc, &rows)
            }
            _ => Ok(self.with_values(alloc, place, value, hit)?),
        }
    }
}

/// Rows, each put at its place.
#[tactic(auto, using(crate::proofs::Adding::added_more, crate::proofs::Adding::added_fails))]
fn in_order(alloc: Global, rows: &[StoredRow]) -> Result<Rows, Fault>
    ensures { Gives result (added [] rows.now) }
{
    let mut ordered = Rows::new(alloc);
    for row in rows {
        ordered.add(row.share()?)?;
    }
    Ok(ordered)
}

fn any_has_key(pages: &[Page], key: &[Datum]) -> bool
    ensures { result ≡ list_any (has_key key.now) pages.now }
{
    pages.iter().any(|page| page.has_key(key))
}

/// Adds a page that has rows.
#[tactic(auto, using(crate::proofs::Paged::joined_push))]
fn push_page(pages: &mut Vec<Page>, page: Page) -> Result<(), NoMemory>
    ensures { OnOk result (joined pages.new.items ≡ joined (pages.old.items ++ page ∷ [])) }
{
    if page.len() == 0 {
        return Ok(());
    }
    pages.push(page)?;
    Ok(())
}

fn page_above(pages: &[Page], row: &StoredRow) -> Option<usize>
    ensures { result ≡ position (has_above row.now) pages.now }
{
    pages.iter().position(|page| page.has_above(row))
}

/// The page for a row: the first with one of a greater key, or else the last; none where there are none.
#[tactic(auto, using(crate::proofs::Paged::first_page, crate::proofs::Paged::last_page))]
fn page_for(pages: &[Page], row: &StoredRow) -> Option<usize>
    ensures within { IfSome result (λ at. at < length pages.now) }
    ensures is { IfSome result (λ at. placed row.now (joined pages.now) ≡ joined (set pages.now at (placed row.now (get_or pages.now at [])))) }
    ensures none { result ≡ None → pages.now ≡ [] }
{
    match page_above(pages, row) {
        Some(at) => Some(at),
        None => pages.len().checked_sub(1),
    }
}

/// Puts two pages in the place of one.
#[tactic(auto, using(crate::proofs::Paged::halved))]
fn halve(pages: &mut Vec<Page>, alloc: Global, at: usize) -> Result<(), NoMemory>
    requires { at < length pages.old.items }
    ensures { OnOk result (joined pages.new.items ≡ joined pages.old.items) }
{
    let (front, back) = pages[at].halves(alloc)?;
    pages[at] = front;
    pages.insert(at + 1, back)?;
    Ok(())
}

/// Puts a row into a page.
fn place_into(
    pages: &mut Vec<Page>,
    alloc: Global,
    at: usize,
    row: StoredRow,
) -> Result<(), NoMemory>
    requires within { at < length pages.old.items }
    requires new { has_key row (get_or pages.old.items at []) ≡ false }
    ensures { OnOk result (joined pages.new.items ≡ joined (set pages.old.items at (placed row (get_or pages.old.items at [])))) }
{
    pages[at] = pages[at].with(alloc, row)?;
    if pages[at].is_full() {
        halve(pages, alloc, at)?;
    }
    Ok(())
}

/// Puts a row before the first one of a greater key.
#[tactic(auto, using(crate::proofs::Paged::no_key_in, crate::proofs::Keeps::rises_alone))]
fn place_row(pages: &mut Vec<Page>, row: StoredRow) -> Result<(), NoMemory>
    requires { has_key row (joined pages.old.items) ≡ false }
    ensures { OnOk result (joined pages.new.items ≡ placed row (joined pages.old.items)) }
{
    let alloc = *pages.allocator();
    match page_for(pages, &row) {
        Some(at) => place_into(pages, alloc, at, row)?,
        None => {
            let mut rows = Vec::new(alloc);
            rows.push(row)?;
            pages.push(Page::make(alloc, rows)?)?;
        }
    }
    Ok(())
}
