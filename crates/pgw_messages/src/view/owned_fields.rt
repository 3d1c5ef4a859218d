//! The fields of an error, kept in the body that they came in.

ghost use Rattle.std.specs.Prelude.{◌≡◌, Some, None, MatchResult};
ghost use Rattle.std.specs.Result.{result_ok};
ghost use Rattle.pgw_messages.specs.Reading.{whole};
ghost use Rattle.pgw_messages.specs.Fields.{fields_at};

use crate::view::fields::FieldsView;
use pgw_frames::Bytes;
use std::marker::Model;

/// The fields of an ErrorResponse or a NoticeResponse that was received, without a copy. Contracts see
/// them as a list.
#[derive(Debug, Drop)]
pub struct OwnedFields {
    body: Bytes,
}

impl Model for OwnedFields {
    ghost use Rattle.std.specs.Prelude.{◌≡◌, List, true};
    ghost use Rattle.pgw_messages.specs.declared.backend.fields.Field.{Field};
    ghost use Rattle.pgw_messages.specs.Fields.{fields_at};
    ghost use Rattle.pgw_messages.specs.Views.{listed, are_fields};

    ghost Value = { List Field };

    ghost view = { λ v. listed (fields_at v.body) };

    ghost invariant = { λ v. are_fields v.body ≡ true };
}

impl OwnedFields {
    /// The fields in this body, or the body as it was where `read_back` refuses it as an error's or a
    /// notice's. It takes no memory.
    pub fn of(body: Bytes) -> Result<OwnedFields, Bytes>
        ensures { MatchResult result (λ fields. result_ok (whole (fields_at body)) ≡ Some fields) (λ back. (back ≡ body) × (result_ok (whole (fields_at body)) ≡ None)) }
    {
        match FieldsView::of(body.as_slice()) {
            Some(_) => Ok(OwnedFields { body }),
            None => Err(body),
        }
    }

    /// The fields, from the first on. It takes no memory.
    pub fn view(&self) -> FieldsView<'_>
        ensures { result ≡ self.now }
    {
        match FieldsView::of(self.body.as_slice()) {
            Some(view) => view,
            None => unreachable!(),
        }
    }
}
