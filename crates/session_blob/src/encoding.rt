//! Writing a blob.

ghost use Rattle.std.specs.Prelude.{◌≡◌, ◌++◌, length, map, nat_lt, IfOk, OnOk};
ghost use Rattle.std.specs.List.{find};
ghost use Rattle.session_blob.specs.Blob.{IsSound, IsSpelling, state_bytes, blob_of, too_many, with_statements};
ghost use Rattle.session_blob.specs.Faults.{Gives};

use crate::fault::BlobFault;
use crate::state::{MOST_BLOB, State};
use crate::statements::Statements;
use crate::writing::{write_statements, write_text, write_variables};
use pgw_frames::{Bytes, NoMemory};
use std::alloc::Global;

/// The most entries of a list.
const MOST_ENTRIES: usize = 65_535;

/// How many types the first statement has that has too many.
fn many_types(statements: &Statements) -> Option<usize>
    ensures { result ≡ find (λ n. nat_lt 65535 n) (map (λ x. length x.types) statements.now) }
{
    for (_name, query) in statements.map.iter() {
        let count = query.types.as_slice().len();
        if count > MOST_ENTRIES {
            return Some(count);
        }
    }
    None
}

/// How many entries the first list has that has too many.
fn too_many(s: &State, statements: &Statements) -> Option<usize>
    ensures { result ≡ too_many (with_statements s.now statements.now) }
{
    if s.variables.len() > MOST_ENTRIES {
        return Some(s.variables.len());
    }
    if statements.len() > MOST_ENTRIES {
        return Some(statements.len());
    }
    many_types(statements)
}

/// The bytes of a state, however many there are.
#[tactic(auto, unfolding(crate::specs::Blob::state_bytes))]
fn written(alloc: Global, s: &State, statements: &Statements) -> Result<Bytes, NoMemory>
    ensures bytes { IfOk result (λ b. b ≡ state_bytes (with_statements s.now statements.now)) }
    ensures good { OnOk result (IsSound (with_statements s.now statements.now)) }
{
    let mut out = Bytes::of(alloc, &[1])?;
    write_text(&mut out, s.user.as_str())?;
    write_text(&mut out, s.database.as_str())?;
    write_variables(&mut out, &s.variables)?;
    write_statements(&mut out, statements)?;
    Ok(out)
}

/// The bytes of a state that has these statements in place of its own.
#[tactic(auto, unfolding(crate::specs::Blob::blob_of))]
pub fn encode_with(alloc: Global, s: &State, statements: &Statements) -> Result<Bytes, BlobFault>
    ensures value { Gives result (blob_of (with_statements s.now statements.now)) }
    ensures spelled { IfOk result (λ b. IsSpelling (with_statements s.now statements.now) b) }
{
    if let Some(count) = too_many(s, statements) {
        return Err(BlobFault::TooLarge(count as u64));
    }
    let out = written(alloc, s, statements)?;
    if out.len() > MOST_BLOB {
        return Err(BlobFault::TooLarge(out.len() as u64));
    }
    Ok(out)
}

/// The bytes of a state.
pub fn encode(alloc: Global, s: &State) -> Result<Bytes, BlobFault>
    ensures value { Gives result (blob_of s.now) }
    ensures spelled { IfOk result (λ b. IsSpelling s.now b) }
{
    encode_with(alloc, s, &s.statements)
}
