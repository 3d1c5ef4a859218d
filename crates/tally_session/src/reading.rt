//! What a Query asks for.

ghost use Rattle.std.specs.Prelude.{◌≡◌, length, IfOk, IfSome};
ghost use Rattle.std.specs.Option.{option_copied};
ghost use Rattle.std.specs.Str.{is_utf8};
ghost use Rattle.tally_session.specs.Reading.{before, behind, is_digit, all_digits, transfer_of, then_decoded, restore_of, begins_copy, is_text};

use base64::DecodeAllocError;
use base64::engine::general_purpose::STANDARD;
use pgw_frames::NoMemory;
use std::alloc::Global;

/// Whether it is a lower-case hexadecimal digit.
fn is_key_digit(c: u8) -> bool
    ensures { result ≡ is_digit c }
{
    matches!(c, b'0'..=b'9' | b'a'..=b'f')
}

/// Whether each is a lower-case hexadecimal digit.
fn are_key_digits(text: &[u8]) -> bool
    ensures { result ≡ all_digits text.now }
{
    text.iter().all(|c| is_key_digit(*c))
}

/// What follows these first bytes.
fn after<'a>(front: &[u8], body: &'a [u8]) -> Option<&'a [u8]>
    ensures { option_copied result ≡ behind front.now body.now }
{
    body.strip_prefix(front)
}

/// What stands before these last bytes.
fn up_to<'a>(end: &[u8], body: &'a [u8]) -> Option<&'a [u8]>
    ensures { option_copied result ≡ before end.now body.now }
{
    body.strip_suffix(end)
}

/// The digits of the key, where the body is a transfer Query's.
pub(crate) fn transfer_digits(body: &[u8]) -> Option<&[u8]>
    ensures digits { option_copied result ≡ transfer_of body.now }
    ensures len { IfSome result (λ d. length d.now ≡ 32) }
{
    let rest = after(b"SHOW TRANSFER STATE WITH '", body)?;
    let digits = up_to(b"'\0", rest)?;
    if digits.len() == 32 && are_key_digits(digits) {
        Some(digits)
    } else {
        None
    }
}

/// Eight bytes that this base64 text stands for.
fn eight_bytes(alloc: Global, text: &[u8]) -> Result<Option<[u8; 8]>, NoMemory>
    ensures { IfOk result (λ b. b ≡ then_decoded (Some text.now)) }
{
    let bytes = match STANDARD.decode(alloc, text) {
        Ok(bytes) => bytes,
        Err(DecodeAllocError::DecodeError(_)) => return Ok(None),
        Err(DecodeAllocError::OutOfMemory) => return Err(NoMemory),
    };
    if bytes.len() != 8 {
        return Ok(None);
    }
    let mut eight = [0; 8];
    eight.copy_from_slice(bytes.as_slice());
    Ok(Some(eight))
}

/// The eight bytes of the blob, where the body is a restore Query's.
pub(crate) fn restored(alloc: Global, body: &[u8]) -> Result<Option<[u8; 8]>, NoMemory>
    ensures { IfOk result (λ b. b ≡ restore_of body.now) }
{
    let front = b"SELECT crdb_internal.deserialize_session(decode('";
    let Some(rest) = after(front, body) else {
        return Ok(None);
    };
    let Some(text) = up_to(b"','base64'))\0", rest) else {
        return Ok(None);
    };
    eight_bytes(alloc, text)
}

/// Whether it is UTF-8.
fn is_unicode(bytes: &[u8]) -> bool
    ensures { result ≡ is_utf8 bytes.now }
{
    str::from_utf8(bytes).is_ok()
}

/// Whether it is a text without a zero byte.
fn is_plain_text(bytes: &[u8]) -> bool
    ensures { result ≡ is_text bytes.now }
{
    !bytes.contains(&0) && is_unicode(bytes)
}

/// Whether the body is a text that begins a copy.
pub(crate) fn asks_copy(body: &[u8]) -> bool
    ensures { result ≡ begins_copy body.now }
{
    if after(b"COPY", body).is_none() {
        return false;
    }
    match up_to(b"\0", body) {
        Some(text) => is_plain_text(text),
        None => false,
    }
}
