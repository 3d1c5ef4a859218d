//! The columns of a reply, by name.

ghost use Rattle.std.specs.Prelude.{◌≡◌, ℕ, false, List, ◌∷◌, Some, map, MatchOption};
ghost use Rattle.transfer_stages.specs.Rows as rows;

use pgw_frames::Frame;
use pgw_messages::{ColumnsView, tags};

/// The columns of a RowDescription.
#[tactic(auto, unfolding(transfer_stages::specs::Rows::columns_of))]
fn columns_of(f: &Frame) -> Option<ColumnsView<'_>>
    ensures { result ≡ rows.columns_of f.now }
{
    if f.tag != tags::ROW_DESCRIPTION {
        return None;
    }
    ColumnsView::of(f.body.as_slice())
}

/// The columns behind a first one of this name.
fn behind_name<'a>(name: &str, columns: ColumnsView<'a>) -> Option<ColumnsView<'a>>
    ensures { MatchOption result ((ns : List (List ℕ)) → rows.are_named (name.now ∷ ns) columns.entry ≡ false) (λ more. (ns : List (List ℕ)) → rows.are_named (name.now ∷ ns) columns.entry ≡ rows.are_named ns more) }
{
    let (first, more) = columns.split_first()?;
    if name != first.name {
        return None;
    }
    Some(more)
}

/// Whether these are columns of just these names.
fn are_named(names: &[&str], columns: ColumnsView<'_>) -> bool
    ensures { result ≡ rows.are_named (map (λ n. n.now) names.now) columns.entry }
{
    match names.split_first() {
        Some((name, others)) => match behind_name(name, columns) {
            Some(more) => are_named(others, more),
            None => false,
        },
        None => columns.split_first().is_none(),
    }
}

/// Whether it describes columns of just these names. Their types don't matter.
pub(crate) fn has_names(names: &[&str], f: &Frame) -> bool
    ensures { result ≡ rows.has_names (map (λ n. n.now) names.now) f.now }
{
    match columns_of(f) {
        Some(columns) => are_named(names, columns),
        None => false,
    }
}

fn is_one(columns: ColumnsView<'_>) -> bool
    ensures { result ≡ rows.is_one (Some columns.entry) }
{
    match columns.split_first() {
        Some((_, more)) => more.split_first().is_none(),
        None => false,
    }
}

/// Whether it describes one column, of any name.
pub(crate) fn has_one_column(f: &Frame) -> bool
    ensures { result ≡ rows.has_one_column f.now }
{
    match columns_of(f) {
        Some(columns) => is_one(columns),
        None => false,
    }
}
