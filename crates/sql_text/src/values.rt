//! What tokens say.

ghost use Rattle.std.specs.Prelude.{◌≡◌, IfOk, false};
ghost use Rattle.std.specs.List.{list_any};
ghost use Rattle.sql_text.specs.Tokens.{lower};
ghost use Rattle.sql_text.specs.Values.{behind_quote, unquoted, unquoted_by, value_of, is_upper, digits_key, key_from, key_of, param_value};

use crate::number::read_number;
use crate::stmt::Value;
use crate::token::TokenKind;
use pgw_frames::{NoMemory, Text};
use std::alloc::Global;

/// A text in lower case.
pub(crate) fn lowered(alloc: Global, t: &str) -> Result<Text, NoMemory>
    ensures { IfOk result (λ r. r ≡ lower t.now) }
{
    let mut text = String::from_str(alloc, t)?;
    text.make_ascii_lowercase();
    Ok(Text::from_string(text))
}

/// The bytes behind the opening quote.
fn behind_quote(bytes: &[u8]) -> &[u8]
    ensures { result.now ≡ behind_quote bytes.now }
{
    match bytes.split_first() {
        Some((c, behind)) if *c == b'\'' => behind,
        _ => bytes,
    }
}

/// The bytes behind an opening quote, each doubled quote as one, and the closing one left out.
fn unquoted_bytes(alloc: Global, bytes: &[u8]) -> Result<Vec<u8>, NoMemory>
    ensures { IfOk result (λ r. r.items ≡ unquoted_by false bytes.now) }
{
    let mut out = Vec::with_capacity(alloc, bytes.len())?;
    let mut is_half = false;
    for c in bytes {
        if *c == b'\'' && !is_half {
            is_half = true;
        } else {
            out.push(*c)?;
            is_half = false;
        }
    }
    Ok(out)
}

/// A quoted text without its quotes, each doubled quote inside as one.
pub(crate) fn unquoted(alloc: Global, quoted: &str) -> Result<Text, NoMemory>
    ensures { IfOk result (λ r. r ≡ unquoted quoted.now) }
{
    let bytes = unquoted_bytes(alloc, behind_quote(quoted.as_bytes()))?;
    let Ok(text) = String::from_utf8(bytes) else {
        unreachable!();
    };
    Ok(Text::from_string(text))
}

/// The value of a parameter, by its text.
fn param_of(t: &[u8]) -> Option<Value>
    ensures { result ≡ param_value t.now }
{
    let Some((_, behind)) = t.split_first() else {
        return None;
    };
    let Some((digit, _)) = behind.split_first() else {
        return None;
    };
    if b'1' <= *digit && *digit <= b'9' {
        return Some(Value::Param(*digit - b'0'));
    }
    None
}

/// The value that a token says, where it says one.
pub(crate) fn value_of(alloc: Global, kind: TokenKind, t: &str) -> Result<Option<Value>, NoMemory>
    ensures { IfOk result (λ r. r ≡ value_of kind t.now) }
{
    match kind {
        TokenKind::Number => match read_number(t) {
            Some(number) => Ok(Some(Value::Number(number))),
            None => Ok(None),
        },
        TokenKind::Quoted => {
            let text = unquoted(alloc, t)?;
            Ok(Some(Value::Text(text)))
        }
        TokenKind::Param => Ok(param_of(t.as_bytes())),
        TokenKind::Word => Ok(None),
        TokenKind::Mark => Ok(None),
    }
}

fn is_upper(c: u8) -> bool
    ensures { result ≡ is_upper c }
{
    b'A' <= c && c <= b'Z'
}

fn has_upper(digits: &[u8]) -> bool
    ensures { result ≡ list_any is_upper digits.now }
{
    digits.iter().any(|c| is_upper(*c))
}

/// The key that 32 hexadecimal digits write, none of upper case.
fn digits_key(digits: &[u8]) -> Option<(u64, u64)>
    ensures { result ≡ digits_key digits.now }
{
    if has_upper(digits) {
        return None;
    }
    let mut bytes = [0u8; 16];
    match hex::decode_to_slice(digits, &mut bytes) {
        Ok(()) => Some(key_from(&bytes)),
        Err(_) => None,
    }
}

/// The key whose bytes these are.
fn key_from(bytes: &[u8; 16]) -> (u64, u64)
    ensures { result ≡ key_from bytes.now }
{
    let [a, b, c, d, e, f, g, h, i, j, k, l, m, n, o, p] = *bytes;
    let high = u64::from_be_bytes([a, b, c, d, e, f, g, h]);
    let low = u64::from_be_bytes([i, j, k, l, m, n, o, p]);
    (high, low)
}

/// The key that a token writes, where it is such digits in quotes.
pub(crate) fn key_of(quoted: &[u8]) -> Option<(u64, u64)>
    ensures { result ≡ key_of quoted.now }
{
    if quoted.len() < 2 || quoted[0] != b'\'' {
        return None;
    }
    digits_key(&quoted[1..quoted.len() - 1])
}
