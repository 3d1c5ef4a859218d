//! Bytes in a line of a schedule.

ghost use Rattle.std.specs.Prelude.{◌≡◌, ◌↔◌, ◌*◌, ◌%◌, ◌<◌, length, IfOk, IsTrue};
ghost use Rattle.proxy_replay.specs.HexText.{ReadsDigit, ReadsPair, ReadsPairs, SpellsBytes, IsKeyOf, SpellsKey};

use crate::word::behind;
use pgw_frames::{Bytes, NoMemory};
use session_model::TransferKey;
use std::alloc::Global;

/// The value of a hexadecimal digit in lower case.
fn digit_value(digit: u8) -> Option<u8>
    ensures { ReadsDigit digit result }
{
    match digit {
        b'0'..=b'9' => Some(digit - b'0'),
        b'a'..=b'f' => Some(digit - b'a' + 10),
        _ => None,
    }
}

/// The byte of two digits.
fn byte_of(high: u8, low: u8) -> Option<u8>
    ensures { ReadsPair high low result }
{
    Some(digit_value(high)? * 16 + digit_value(low)?)
}

/// Writes the bytes of pairs of digits, and says whether all of them are in lower case.
fn read_pairs(text: &[u8], out: &mut [u8]) -> bool
    requires { length text.now ≡ 2 * length out.old }
    ensures { ReadsPairs text.now result out.new }
{
    for i in 0..out.len() {
        match byte_of(text[2 * i], text[2 * i + 1]) {
            Some(byte) => out[i] = byte,
            None => return false,
        }
    }
    true
}

/// Whether the length is that of pairs, at least one.
fn is_paired(text: &[u8]) -> bool
    ensures { IsTrue result ↔ ((0 < length text.now) × (length text.now % 2 ≡ 0)) }
{
    !text.is_empty() && text.len() % 2 == 0
}

/// The bytes behind a word: pairs of hexadecimal digits in lower case, at least one pair.
pub(crate) fn bytes_behind(
    alloc: Global,
    word: &[u8],
    line: &[u8],
) -> Result<Option<Bytes>, NoMemory>
    ensures { IfOk result (SpellsBytes word.now line.now) }
{
    let Some(text) = behind(word, line) else {
        return Ok(None);
    };
    if !is_paired(text) {
        return Ok(None);
    }
    let mut bytes = vec![in alloc; 0u8; text.len() / 2]?;
    if !read_pairs(text, bytes.as_mut_slice()) {
        return Ok(None);
    }
    Ok(Some(Bytes::from_vec(bytes)))
}

/// The key whose sixteen bytes these are.
fn key_of(bytes: &[u8]) -> Option<TransferKey>
    ensures { IsKeyOf bytes.now result }
{
    let (high, rest) = bytes.split_first_chunk::<8>()?;
    let (low, rest) = rest.split_first_chunk::<8>()?;
    if !rest.is_empty() {
        return None;
    }
    Some(TransferKey {
        high: u64::from_be_bytes(*high),
        low: u64::from_be_bytes(*low),
    })
}

/// The key behind a word: 32 hexadecimal digits in lower case.
pub(crate) fn key_behind(
    alloc: Global,
    word: &[u8],
    line: &[u8],
) -> Result<Option<TransferKey>, NoMemory>
    ensures { IfOk result (SpellsKey word.now line.now) }
{
    match bytes_behind(alloc, word, line)? {
        Some(bytes) => Ok(key_of(bytes.as_slice())),
        None => Ok(None),
    }
}
