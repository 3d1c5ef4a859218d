//! Writing the parts of a blob.

ghost use Rattle.std.specs.Prelude.{◌≡◌, ◌++◌, ◌<◌, ◌^◌, length, OnOk};
ghost use Rattle.std.specs.Int.{w16, w32, to_be_bytes};
ghost use Rattle.std.specs.List.{AllByRecursion, IsDistinct};
ghost use Rattle.std.specs.Str.{bytes_eq};
ghost use Rattle.pgw_messages.specs.Spelling.{list_bytes};
ghost use Rattle.session_blob.specs.Blob.{sized, variable_bytes, prepared_bytes, IsUnicode, IsVariable, IsPrepared, HasTypes};
ghost use Rattle.session_blob.specs.Entries.{variable_names, prepared_names};

use crate::statements::Statements;
use crate::types::TypeNumbers;
use crate::variables::Variables;
use pgw_frames::{Bytes, NoMemory};

/// The low 32 bits of a length.
fn length_field(len: usize) -> u32
    ensures { to_be_bytes w32 result ≡ to_be_bytes w32 len }
{
    (len as u64 & 0xffff_ffff) as u32
}

/// The low 16 bits of a count.
fn count_field(count: usize) -> u16
    ensures { to_be_bytes w16 result ≡ to_be_bytes w16 count }
{
    (count as u64 & 0xffff) as u16
}

/// Appends the length of a text, by its low 32 bits, and the text.
pub(crate) fn write_text(out: &mut Bytes, text: &str) -> Result<(), NoMemory>
    ensures bytes { OnOk result (out.new ≡ out.old ++ sized text.now) }
    ensures good { OnOk result (IsUnicode text.now) }
{
    out.extend(&length_field(text.len()).to_be_bytes())?;
    out.extend(text.as_bytes())?;
    Ok(())
}

/// Appends a count, by its low 16 bits.
fn write_count(out: &mut Bytes, count: usize) -> Result<(), NoMemory>
    ensures { OnOk result (out.new ≡ out.old ++ to_be_bytes w16 count) }
{
    out.extend(&count_field(count).to_be_bytes())?;
    Ok(())
}

/// Appends the variables with their count.
pub(crate) fn write_variables(out: &mut Bytes, variables: &Variables) -> Result<(), NoMemory>
    ensures bytes { OnOk result (out.new ≡ out.old ++ list_bytes variable_bytes variables.now) }
    ensures good { OnOk result (AllByRecursion IsVariable variables.now) }
    ensures distinct { OnOk result (IsDistinct bytes_eq (variable_names variables.now)) }
{
    write_count(out, variables.len())?;
    for (name, value) in variables.map.iter() {
        write_text(out, name.as_str())?;
        write_text(out, value.as_str())?;
    }
    Ok(())
}

/// Appends the types with their count.
fn write_types(out: &mut Bytes, types: &TypeNumbers) -> Result<(), NoMemory>
    ensures bytes { OnOk result (out.new ≡ out.old ++ list_bytes (to_be_bytes w32) types.now) }
    ensures good { OnOk result (AllByRecursion (λ n. n < 2 ^ 32) types.now) }
{
    write_count(out, types.as_slice().len())?;
    for number in types.as_slice() {
        out.extend(&number.to_be_bytes())?;
    }
    Ok(())
}

/// Appends the statements with their count.
pub(crate) fn write_statements(out: &mut Bytes, statements: &Statements) -> Result<(), NoMemory>
    ensures bytes { OnOk result (out.new ≡ out.old ++ list_bytes prepared_bytes statements.now) }
    ensures good { OnOk result (AllByRecursion (λ x. HasTypes x → IsPrepared x) statements.now) }
    ensures distinct { OnOk result (IsDistinct bytes_eq (prepared_names statements.now)) }
{
    write_count(out, statements.len())?;
    for (name, query) in statements.map.iter() {
        write_text(out, name.as_str())?;
        write_text(out, query.query.as_str())?;
        write_types(out, &query.types)?;
    }
    Ok(())
}
