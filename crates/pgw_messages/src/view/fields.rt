//! The fields of an ErrorResponse or a NoticeResponse.

ghost use Rattle.std.specs.Prelude.{◌≡◌, [], ◌∷◌, MatchOption};
ghost use Rattle.std.specs.Result.{result_ok};
ghost use Rattle.pgw_messages.specs.Reading.{whole};
ghost use Rattle.pgw_messages.specs.Fields.{fields_at};
ghost use Rattle.pgw_messages.specs.Views.{are_fields};

use crate::view::front::text;
use std::marker::Model;

/// The fields in the body of an ErrorResponse or a NoticeResponse, from the first on. Contracts see
/// them as a list.
#[derive(Debug, Drop)]
pub struct FieldsView<'a> {
    rest: &'a [u8],
}

impl<'a> Model for FieldsView<'a> {
    ghost use Rattle.std.specs.Prelude.{◌≡◌, List, true};
    ghost use Rattle.pgw_messages.specs.declared.backend.fields.Field.{Field};
    ghost use Rattle.pgw_messages.specs.Fields.{fields_at};
    ghost use Rattle.pgw_messages.specs.Views.{listed, are_fields};

    ghost Value = { List Field };

    ghost view = { λ v. listed (fields_at v.rest.now) };

    ghost invariant = { λ v. are_fields v.rest.now ≡ true };
}

/// Whether these bytes are fields up to a zero byte at their end.
fn end_well(bytes: &[u8]) -> bool
    ensures { result ≡ are_fields bytes.now }
{
    let mut rest = bytes;
    while let Some((code, behind)) = rest.split_first() {
        if *code == 0 {
            return behind.is_empty();
        }
        match text(behind) {
            Some((_, more)) => rest = more,
            None => return false,
        }
    }
    false
}

impl<'a> FieldsView<'a> {
    /// The fields in this body, or `None` where `read_back` refuses it as an error's or a notice's. It
    /// takes no memory.
    pub fn of(body: &'a [u8]) -> Option<FieldsView<'a>>
        ensures { result ≡ result_ok (whole (fields_at body.now)) }
    {
        if !end_well(body) {
            return None;
        }
        Some(FieldsView { rest: body })
    }

    /// The first field's code and text, and the others; nothing where there is none. It takes no
    /// memory.
    pub fn split_first(self) -> Option<(u8, &'a str, FieldsView<'a>)>
        ensures { MatchOption result (self.entry ≡ []) (λ r. self.entry ≡ record { code = r.0; value = r.1.now } ∷ r.2) }
    {
        let FieldsView { rest } = self;
        let (code, behind) = rest.split_first()?;
        if *code == 0 {
            return None;
        }
        let (value, rest) = text(behind)?;
        Some((*code, value, FieldsView { rest }))
    }
}
