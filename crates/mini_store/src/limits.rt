//! The limits of the store.

ghost use Rattle.std.specs.Prelude.{◌≡◌, List, ℕ, length};
ghost use Rattle.std.specs.List.{list_all};
ghost use Rattle.sql_text.specs.Numbers.{fits};
ghost use Rattle.mini_store.specs.Limits.{are_short_names, are_small, has_room, is_short, is_small, is_small_filter, is_small_match};

use crate::datum::{Given, GivenList, Match};
use pgw_frames::Text;
use sql_text::ColumnDef;

pub(crate) const MOST_TABLES: usize = 64;

pub(crate) const MOST_COLUMNS: usize = 16;

/// Over all tables.
const MOST_ROWS: usize = 100_000;

/// In bytes.
const LONGEST_TEXT: usize = 256;

pub(crate) fn is_short(t: &str) -> bool
    ensures { result ≡ is_short t.now }
{
    t.len() <= LONGEST_TEXT
}

fn fits(_number: i64) -> bool
    ensures { result ≡ fits _number }
{
    true
}

fn is_small(given: &Given) -> bool
    ensures { result ≡ is_small given.now }
{
    match given {
        Given::Number(n) => fits(*n),
        Given::Text(t) => is_short(t.as_str()),
        Given::Bound(t) => is_short(t.as_str()),
    }
}

pub(crate) fn is_small_match(m: &Match) -> bool
    ensures { result ≡ is_small_match m.now }
{
    is_short(m.column.as_str()) && is_small(&m.value)
}

pub(crate) fn is_small_filter(filter: &Option<Match>) -> bool
    ensures { result ≡ is_small_filter filter.now }
{
    match filter {
        None => true,
        Some(m) => is_small_match(m),
    }
}

pub(crate) fn are_small(givens: &[Given]) -> bool
    ensures { result ≡ are_small givens.now }
{
    givens.iter().all(|given| is_small(given))
}

pub(crate) fn are_small_rows(rows: &[GivenList]) -> bool
    ensures { result ≡ list_all are_small rows.now }
{
    rows.iter().all(|row| are_small(row.as_slice()))
}

pub(crate) fn are_short(names: &[Text]) -> bool
    ensures { result ≡ list_all is_short names.now }
{
    names.iter().all(|name| is_short(name.as_str()))
}

pub(crate) fn are_short_names(columns: &[ColumnDef]) -> bool
    ensures { result ≡ are_short_names columns.now }
{
    columns.iter().all(|column| is_short(column.name.as_str()))
}

/// Whether a store that holds so many rows has room for so many more.
pub(crate) fn has_room(held: usize, more: usize) -> bool
    ensures { result ≡ has_room held more }
{
    more == 0 || (held <= MOST_ROWS && more <= MOST_ROWS - held)
}
