//! The values of a reply's row.

ghost use Rattle.std.specs.Prelude.{◌≡◌, List, [], ◌∷◌, Some, None, MatchOption};
ghost use Rattle.std.specs.Option.{option_copied};
ghost use Rattle.pgw_messages.specs.declared.params.Pair.{Pair};
ghost use Rattle.session_model.specs.declared.transfer.TransferKey.{TransferKey};
ghost use Rattle.transfer_stages.specs.Exchange.{said, has_t};
ghost use Rattle.transfer_stages.specs.Rows as rows;

use pgw_frames::Frame;
use pgw_messages::{RowView, tags};

/// The four values of the old pod's row. A `None` is NULL.
#[derive(Clone, Copy)]
pub(crate) struct OldRow<'a> {
    pub error: Option<&'a [u8]>,
    pub state: Option<&'a [u8]>,
    pub token: Option<&'a [u8]>,
    pub key: Option<&'a [u8]>,
}

/// The values of a DataRow.
#[tactic(auto, unfolding(transfer_stages::specs::Rows::row_of))]
fn row_of(f: &Frame) -> Option<RowView<'_>>
    ensures { result ≡ rows.row_of f.now }
{
    if f.tag != tags::DATA_ROW {
        return None;
    }
    RowView::of(f.body.as_slice())
}

/// The values of a row of four. A row of fewer or more says nothing.
fn four_values<'a>(row: RowView<'a>) -> Option<OldRow<'a>>
    ensures { MatchOption result ((t : TransferKey) (p : List Pair) → said t p (Some row.entry) ≡ None) (λ r. row.entry ≡ option_copied r.error ∷ option_copied r.state ∷ option_copied r.token ∷ option_copied r.key ∷ []) }
{
    let (error, row) = row.split_first()?;
    let (state, row) = row.split_first()?;
    let (token, row) = row.split_first()?;
    let (key, row) = row.split_first()?;
    if row.split_first().is_some() {
        return None;
    }
    Some(OldRow {
        error,
        state,
        token,
        key,
    })
}

/// The values of the old pod's row. A frame that is no row of four says nothing.
pub(crate) fn old_row(f: &Frame) -> Option<OldRow<'_>>
    ensures { MatchOption result ((t : TransferKey) (p : List Pair) → said t p (rows.row_of f.now) ≡ None) (λ r. rows.row_of f.now ≡ Some (option_copied r.error ∷ option_copied r.state ∷ option_copied r.token ∷ option_copied r.key ∷ [])) }
{
    four_values(row_of(f)?)
}

fn is_true(row: RowView<'_>) -> bool
    ensures { result ≡ has_t (Some row.entry) }
{
    match row.split_first() {
        Some((Some(value), more)) => value == b"t".as_slice() && more.split_first().is_none(),
        Some((None, _)) => false,
        None => false,
    }
}

/// Whether it is a row of one value, which is true.
pub(crate) fn is_true_row(f: &Frame) -> bool
    ensures { result ≡ has_t (rows.row_of f.now) }
{
    match row_of(f) {
        Some(row) => is_true(row),
        None => false,
    }
}
