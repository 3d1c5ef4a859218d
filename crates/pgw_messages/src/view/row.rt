//! The values of a DataRow.

ghost use Rattle.std.specs.Prelude.{◌≡◌, [], ◌∷◌, MatchOption};
ghost use Rattle.std.specs.Option.{option_copied};
ghost use Rattle.std.specs.Result.{result_ok};
ghost use Rattle.pgw_messages.specs.Reading.{value_at, list_at, whole};
ghost use Rattle.pgw_messages.specs.Views.{is_whole};

use crate::view::front::{number_16, value};
use std::marker::Model;

/// The values in the body of a DataRow, from the first on. Contracts see them as a list.
#[derive(Debug, Drop)]
pub struct RowView<'a> {
    count: u16,
    rest: &'a [u8],
}

impl<'a> Model for RowView<'a> {
    ghost use Rattle.std.specs.Prelude.{◌≡◌, List, Option, ℕ, true};
    ghost use Rattle.pgw_messages.specs.Reading.{value_at, many_at};
    ghost use Rattle.pgw_messages.specs.Views.{listed, is_whole};

    ghost Value = { List (Option (List ℕ)) };

    ghost view = { λ v. listed (many_at value_at v.count v.rest.now) };

    ghost invariant = { λ v. is_whole value_at v.count v.rest.now ≡ true };
}

/// Whether these bytes are so many values.
fn are_values(count: u16, bytes: &[u8]) -> bool
    ensures { result ≡ is_whole value_at count bytes.now }
{
    let mut rest = bytes;
    for _ in 0..count {
        match value(rest) {
            Some((_, more)) => rest = more,
            None => return false,
        }
    }
    rest.is_empty()
}

impl<'a> RowView<'a> {
    /// The values in this body, or `None` where `read_back` refuses it as a DataRow's. It takes no
    /// memory.
    pub fn of(body: &'a [u8]) -> Option<RowView<'a>>
        ensures { result ≡ result_ok (whole (list_at value_at body.now)) }
    {
        let (count, rest) = number_16(body)?;
        if !are_values(count, rest) {
            return None;
        }
        Some(RowView { count, rest })
    }

    /// The first value, which is `None` where it is NULL, and the others; nothing where there is none.
    /// It takes no memory.
    pub fn split_first(self) -> Option<(Option<&'a [u8]>, RowView<'a>)>
        ensures { MatchOption result (self.entry ≡ []) (λ r. self.entry ≡ option_copied r.0 ∷ r.1) }
    {
        let RowView { count, rest } = self;
        if count == 0 {
            return None;
        }
        let (first, rest) = value(rest)?;
        Some((
            first,
            RowView {
                count: count - 1,
                rest,
            },
        ))
    }
}
