//! Numbers in decimal, as a line of a schedule or of a report has them.

ghost use Rattle.std.specs.Prelude.{◌≡◌, ◌↔◌, ◌<◌, ◌++◌, length, slice_index, IfOk, IsTrue};
ghost use Rattle.std.specs.Fmt.{decimal};
ghost use Rattle.proxy_replay.specs.Numbers.{ReadsDigits, SpellsNumber};

use crate::word::behind;
use pgw_frames::{Bytes, NoMemory};

/// Whether a zero stands before something else.
fn has_leading_zero(text: &[u8]) -> bool
    ensures { IsTrue result ↔ ((1 < length text.now) × (slice_index text.now 0 ≡ 48)) }
{
    text.len() > 1 && text[0] == b'0'
}

/// The value of decimal digits, where they are no more than 65,535. Nothing at all is 0.
fn value_of(digits: &[u8]) -> Option<u32>
    ensures { ReadsDigits digits.now result }
{
    let mut n = 0u32;
    for &c in digits {
        if !c.is_ascii_digit() {
            return None;
        }
        n = n * 10 + (c - b'0') as u32;
        if n > 65_535 {
            return None;
        }
    }
    Some(n)
}

/// The number behind a word: decimal without leading zeros, at most 65,535.
pub(crate) fn number_behind(word: &[u8], line: &[u8]) -> Option<u32>
    ensures { SpellsNumber word.now line.now result }
{
    let text = behind(word, line)?;
    if text.is_empty() {
        return None;
    }
    if has_leading_zero(text) {
        return None;
    }
    value_of(text)
}

/// Appends a number.
pub(crate) fn add_number(out: &mut Bytes, n: u64) -> Result<(), NoMemory>
    ensures { IfOk result (λ _. out.new ≡ out.old ++ decimal n) }
{
    let mut buffer = itoa::Buffer::new();
    out.extend(buffer.format(n).as_bytes())
}
