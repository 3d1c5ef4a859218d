//! The columns of a RowDescription.

ghost use Rattle.std.specs.Prelude.{◌≡◌, [], ◌∷◌, None, Ok, MatchOption};
ghost use Rattle.std.specs.Result.{result_ok};
ghost use Rattle.pgw_messages.specs.Reading.{list_at, whole};
ghost use Rattle.pgw_messages.specs.Backend.{column_at};
ghost use Rattle.pgw_messages.specs.Views.{is_whole};
ghost use Rattle.pgw_messages.specs.ColumnViews.{column_of};

use crate::view::column::ColumnView;
use crate::view::front::{number_16, number_32, signed_16, signed_32, text};
use std::marker::Model;

/// The columns in the body of a RowDescription, from the first on. Contracts see them as a list.
#[derive(Debug, Drop)]
pub struct ColumnsView<'a> {
    count: u16,
    rest: &'a [u8],
}

impl<'a> Model for ColumnsView<'a> {
    ghost use Rattle.std.specs.Prelude.{◌≡◌, List, true};
    ghost use Rattle.pgw_messages.specs.declared.backend.columns.Column.{Column};
    ghost use Rattle.pgw_messages.specs.Reading.{many_at};
    ghost use Rattle.pgw_messages.specs.Backend.{column_at};
    ghost use Rattle.pgw_messages.specs.Views.{listed, is_whole};

    ghost Value = { List Column };

    ghost view = { λ v. listed (many_at column_at v.count v.rest.now) };

    ghost invariant = { λ v. is_whole column_at v.count v.rest.now ≡ true };
}

/// The first column, and the bytes behind it.
fn column(bytes: &[u8]) -> Option<(ColumnView<'_>, &[u8])>
    ensures { MatchOption result (result_ok (column_at bytes.now) ≡ None) (λ r. column_at bytes.now ≡ Ok (column_of r.0, r.1.now)) }
{
    let (name, rest) = text(bytes)?;
    let (table, rest) = number_32(rest)?;
    let (column, rest) = number_16(rest)?;
    let (kind, rest) = number_32(rest)?;
    let (size, rest) = signed_16(rest)?;
    let (modifier, rest) = signed_32(rest)?;
    let (format, rest) = number_16(rest)?;
    let column = ColumnView {
        name,
        table,
        column,
        kind,
        size,
        modifier,
        format,
    };
    Some((column, rest))
}

/// Whether these bytes are so many columns.
fn are_columns(count: u16, bytes: &[u8]) -> bool
    ensures { result ≡ is_whole column_at count bytes.now }
{
    let mut rest = bytes;
    for _ in 0..count {
        match column(rest) {
            Some((_, more)) => rest = more,
            None => return false,
        }
    }
    rest.is_empty()
}

impl<'a> ColumnsView<'a> {
    /// The columns in this body, or `None` where `read_back` refuses it as a RowDescription's. It takes
    /// no memory.
    pub fn of(body: &'a [u8]) -> Option<ColumnsView<'a>>
        ensures { result ≡ result_ok (whole (list_at column_at body.now)) }
    {
        let (count, rest) = number_16(body)?;
        if !are_columns(count, rest) {
            return None;
        }
        Some(ColumnsView { count, rest })
    }

    /// The first column and the others, or nothing where there is none. It takes no memory.
    pub fn split_first(self) -> Option<(ColumnView<'a>, ColumnsView<'a>)>
        ensures { MatchOption result (self.entry ≡ []) (λ r. self.entry ≡ column_of r.0 ∷ r.1) }
    {
        let ColumnsView { count, rest } = self;
        if count == 0 {
            return None;
        }
        let (first, rest) = column(rest)?;
        Some((
            first,
            ColumnsView {
                count: count - 1,
                rest,
            },
        ))
    }
}
