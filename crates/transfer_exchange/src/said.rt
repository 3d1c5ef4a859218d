//! What the old pod's row says.

ghost use Rattle.std.specs.Prelude.{◌≡◌, IfOk, if◌then◌else◌};
ghost use Rattle.std.specs.Result.{result_ok};
ghost use Rattle.std.specs.Option.{option_copied};
ghost use Rattle.std.specs.Str.{is_utf8};
ghost use Rattle.base64.specs.GeneralPurpose.{decode_of};
ghost use Rattle.base64.specs.Engines.{standard};
ghost use Rattle.transfer_stages.specs.Exchange as expected;
ghost use Rattle.transfer_stages.specs.Rows.{row_of};
ghost use Rattle.transfer_stages.specs.Exchange.{is_base64};
ghost use Rattle.transfer_exchange.specs.Packets.{are_within};

use crate::rows::{OldRow, old_row};
use crate::texts::packet_fits;
use base64::DecodeAllocError;
use base64::engine::general_purpose::STANDARD;
use pgw_frames::{Bytes, Frame, NoMemory, Text};
use pgw_messages::Params;
use session_model::{TransferKey, key_text};
use std::alloc::Global;
use transfer_stages::Said;

/// The most bytes of a session's state.
const MOST_STATE: usize = 1_048_576;

/// Whether the value is the digits of this key.
fn has_key(alloc: Global, key: &TransferKey, v: Option<&[u8]>) -> Result<bool, NoMemory>
    ensures { IfOk result (λ b. b ≡ expected.has_key key.now (option_copied v.entry)) }
{
    match v {
        Some(text) => {
            let digits = key_text(alloc, key)?;
            Ok(text == digits.as_bytes())
        }
        None => Ok(false),
    }
}

/// The bytes that stand here in padded base64 (RFC 4648).
fn decoded(alloc: Global, text: &[u8]) -> Result<Option<Bytes>, NoMemory>
    ensures { IfOk result (λ r. r ≡ result_ok (decode_of standard text.now)) }
{
    match STANDARD.decode(alloc, text) {
        Ok(bytes) => Ok(Some(Bytes::from_vec(bytes))),
        Err(DecodeAllocError::DecodeError(_)) => Ok(None),
        Err(DecodeAllocError::OutOfMemory) => Err(NoMemory),
    }
}

/// Whether a state, and a startup packet with this token, are within their limits.
fn are_within(params: &Params, state: &[u8], token: &[u8]) -> bool
    ensures { result ≡ are_within params.now state.now token.now }
{
    state.len() <= MOST_STATE && packet_fits(params, token)
}

/// The same text, where it is padded base64.
fn base64_text(alloc: Global, text: &[u8]) -> Result<Option<Text>, NoMemory>
    ensures { IfOk result (λ r. r ≡ (if is_base64 (decode_of standard text.now) then Some text.now else None)) }
{
    match STANDARD.decode(alloc, text) {
        Ok(bytes) => {
            let again = STANDARD.encode(alloc, bytes.as_slice())?;
            Ok(Some(Text::from_string(again)))
        }
        Err(DecodeAllocError::DecodeError(_)) => Ok(None),
        Err(DecodeAllocError::OutOfMemory) => Err(NoMemory),
    }
}

/// A state and a token, where they can be taken over.
fn given(
    alloc: Global,
    params: &Params,
    state: &[u8],
    token: &[u8],
) -> Result<Option<Said>, NoMemory>
    ensures { IfOk result (λ s. s ≡ expected.given params.now (decode_of standard state.now) token.now) }
{
    let Some(blob) = decoded(alloc, state)? else {
        return Ok(None);
    };
    if !are_within(params, blob.as_slice(), token) {
        return Ok(None);
    }
    let Some(token) = base64_text(alloc, token)? else {
        return Ok(None);
    };
    Ok(Some(Said::Given(blob, token)))
}

/// Why there is no state.
fn refused(alloc: Global, reason: &[u8]) -> Result<Option<Said>, NoMemory>
    ensures { IfOk result (λ s. s ≡ (if is_utf8 reason.now then Some (Said.Refuses reason.now) else None)) }
{
    match str::from_utf8(reason) {
        Ok(text) => Ok(Some(Said::Refuses(Text::of(alloc, text)?))),
        Err(_) => Ok(None),
    }
}

/// What a row without an error says.
fn without_error(alloc: Global, params: &Params, row: &OldRow<'_>) -> Result<Option<Said>, NoMemory>
    ensures { IfOk result (λ s. s ≡ expected.without_error params.now (option_copied row.now.state) (option_copied row.now.token)) }
{
    match (row.state, row.token) {
        (Some(state), Some(token)) => given(alloc, params, state, token),
        (Some(_), None) => Ok(None),
        (None, _) => Ok(None),
    }
}

/// What a row with this transfer's key says.
fn said_by_row(alloc: Global, params: &Params, row: &OldRow<'_>) -> Result<Option<Said>, NoMemory>
    ensures { IfOk result (λ s. s ≡ expected.by_error params.now (option_copied row.now.error) (option_copied row.now.state) (option_copied row.now.token)) }
{
    match row.error {
        Some(reason) => {
            if reason.is_empty() {
                without_error(alloc, params, row)
            } else {
                refused(alloc, reason)
            }
        }
        None => without_error(alloc, params, row),
    }
}

/// What a frame says as the old pod's row, where it can be taken.
pub(crate) fn said(
    alloc: Global,
    key: &TransferKey,
    params: &Params,
    f: &Frame,
) -> Result<Option<Said>, NoMemory>
    ensures { IfOk result (λ s. s ≡ expected.said key.now params.now (row_of f.now)) }
{
    let Some(row) = old_row(f) else {
        return Ok(None);
    };
    if !has_key(alloc, key, row.key)? {
        return Ok(None);
    }
    said_by_row(alloc, params, &row)
}
