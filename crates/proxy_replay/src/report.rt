//! The text of a report.

ghost use Rattle.std.specs.Prelude.{◌≡◌, ◌≤◌, ◌++◌, [], ◌∷◌, length, IfOk, codes};
ghost use Rattle.std.specs.Fmt.{decimal};
ghost use Rattle.hex.specs.Hex.{encode_lower};
ghost use Rattle.proxy_replay.specs.Report.{count_line, hex_lines, report_text};

use crate::number::add_number;
use crate::phase_words::add_phase;
use forwarder_world::{Counts, Phase};
use pgw_frames::{Bytes, NoMemory};
use std::alloc::Global;

/// How many bytes stand in a line.
const ROW: usize = 32;

/// Appends a name and its count.
pub(crate) fn add_count(out: &mut Bytes, name: &[u8], n: u64) -> Result<(), NoMemory>
    ensures { IfOk result (λ _. out.new ≡ out.old ++ count_line name.now n) }
{
    out.extend(name)?;
    out.extend(b" ")?;
    add_number(out, n)?;
    out.extend(b"\n")
}

/// One line of bytes in hexadecimal.
pub(crate) fn add_row(out: &mut Bytes, bytes: &[u8]) -> Result<(), NoMemory>
    requires { length bytes.now ≤ 32 }
    ensures { IfOk result (λ _. out.new ≡ out.old ++ encode_lower bytes.now ++ 10 ∷ []) }
{
    let mut digits = [0u8; 2 * ROW];
    let digits = &mut digits[..2 * bytes.len()];
    hex::encode_to_slice(bytes, digits).unwrap();
    out.extend(digits)?;
    out.extend(b"\n")
}

/// The bytes in hexadecimal, 32 of them in a line.
fn add_rows(out: &mut Bytes, bytes: &[u8]) -> Result<(), NoMemory>
    ensures { IfOk result (λ _. out.new ≡ out.old ++ hex_lines bytes.now) }
{
    let mut rest = bytes;
    while !rest.is_empty() {
        let (row, more) = rest.split_at(rest.len().min(ROW));
        add_row(out, row)?;
        rest = more;
    }
    Ok(())
}

/// The report of a world.
pub fn report_of(
    alloc: Global,
    phase: &Phase,
    counts: &Counts,
    received: &[u8],
) -> Result<Bytes, NoMemory>
    ensures text { IfOk result (λ text. text ≡ report_text phase.now counts.now received.now) }
{
    let mut out = Bytes::of(alloc, b"sqlproxy replay 1\nphase ")?;
    add_phase(&mut out, phase)?;
    out.extend(b"\n")?;
    add_count(&mut out, b"moves", counts.moves)?;
    add_count(&mut out, b"failed", counts.failed)?;
    add_count(&mut out, b"taken", counts.taken)?;
    add_count(&mut out, b"forwarded", counts.forwarded)?;
    add_count(&mut out, b"passed", counts.passed)?;
    add_count(&mut out, b"received", received.len() as u64)?;
    add_rows(&mut out, received)?;
    out.extend(b"end\n")?;
    Ok(out)
}
