//! The field at the front of some bytes, and the bytes behind it.

ghost use Rattle.std.specs.Prelude.{◌≡◌, position, None, Ok, Err, MatchOption};
ghost use Rattle.std.specs.Option.{option_copied};
ghost use Rattle.std.specs.Result.{result_ok};
ghost use Rattle.pgw_messages.specs.Reading.{is_zero, number_at, signed_at, zero_ended, text_at, value_at};
ghost use Rattle.std.specs.Int.{w16, w32};
ghost use Rattle.pgw_messages.specs.declared.fault.MsgFault.TheVariants.{Short};

use std::str;

/// Where the first zero byte stands.
fn place_of_zero(bytes: &[u8]) -> Option<usize>
    ensures { result ≡ position is_zero bytes.now }
{
    bytes.iter().position(|b| *b == 0)
}

/// The bytes before the first zero byte, and those behind it.
pub(crate) fn zero_ended(bytes: &[u8]) -> Option<(&[u8], &[u8])>
    ensures { MatchOption result (zero_ended bytes.now ≡ Err Short) (λ r. zero_ended bytes.now ≡ Ok (r.0.now, r.1.now)) }
{
    let end = place_of_zero(bytes)?;
    let (text, behind) = bytes.split_at(end);
    Some((text, behind.split_at(1).1))
}

/// A text, and the bytes behind its zero byte.
pub(crate) fn text(bytes: &[u8]) -> Option<(&str, &[u8])>
    ensures { MatchOption result (result_ok (text_at bytes.now) ≡ None) (λ r. text_at bytes.now ≡ Ok (r.0.now, r.1.now)) }
{
    let (text, rest) = zero_ended(bytes)?;
    match str::from_utf8(text) {
        Ok(text) => Some((text, rest)),
        Err(_) => None,
    }
}

/// A value, of which `None` is NULL, and the bytes behind it.
pub(crate) fn value(bytes: &[u8]) -> Option<(Option<&[u8]>, &[u8])>
    ensures { MatchOption result (result_ok (value_at bytes.now) ≡ None) (λ r. value_at bytes.now ≡ Ok (option_copied r.0, r.1.now)) }
{
    let (word, rest) = bytes.split_first_chunk::<4>()?;
    let len = i32::from_be_bytes(*word);
    if len == -1 {
        return Some((None, rest));
    }
    if len < 0 {
        return None;
    }
    let (value, rest) = rest.split_at_checked(len as usize)?;
    Some((Some(value), rest))
}

/// A number of 32 bits, and the bytes behind it.
pub(crate) fn number_32(bytes: &[u8]) -> Option<(u32, &[u8])>
    ensures { MatchOption result (number_at w32 bytes.now ≡ Err Short) (λ r. number_at w32 bytes.now ≡ Ok (r.0, r.1.now)) }
{
    let (word, rest) = bytes.split_first_chunk::<4>()?;
    Some((u32::from_be_bytes(*word), rest))
}

/// A number of 16 bits with a sign, and the bytes behind it.
pub(crate) fn signed_16(bytes: &[u8]) -> Option<(i16, &[u8])>
    ensures { MatchOption result (signed_at w16 bytes.now ≡ Err Short) (λ r. signed_at w16 bytes.now ≡ Ok (r.0, r.1.now)) }
{
    let (word, rest) = bytes.split_first_chunk::<2>()?;
    Some((i16::from_be_bytes(*word), rest))
}

/// A number of 32 bits with a sign, and the bytes behind it.
pub(crate) fn signed_32(bytes: &[u8]) -> Option<(i32, &[u8])>
    ensures { MatchOption result (signed_at w32 bytes.now ≡ Err Short) (λ r. signed_at w32 bytes.now ≡ Ok (r.0, r.1.now)) }
{
    let (word, rest) = bytes.split_first_chunk::<4>()?;
    Some((i32::from_be_bytes(*word), rest))
}

/// A number of 16 bits, and the bytes behind it.
pub(crate) fn number_16(bytes: &[u8]) -> Option<(u16, &[u8])>
    ensures { MatchOption result (number_at w16 bytes.now ≡ Err Short) (λ r. number_at w16 bytes.now ≡ Ok (r.0, r.1.now)) }
{
    let (word, rest) = bytes.split_first_chunk::<2>()?;
    Some((u16::from_be_bytes(*word), rest))
}
