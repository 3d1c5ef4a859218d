//! Statements without one of them, and a state so.

ghost use Rattle.std.specs.Prelude.{◌≡◌, OnOk, OnErr, IfOk};
ghost use Rattle.std.specs.Option.{option_map};
ghost use Rattle.session_blob.specs.Blob.{IsSpelling, blob_of, with_statements};
ghost use Rattle.session_blob.specs.Entries.{is_among, prepared, prepared_names};
ghost use Rattle.session_blob.specs.Faults.{Gives};
ghost use Rattle.session_blob.specs.Prepared.{find_prepared, without_prepared};
ghost use Rattle.mini_parts.specs.Named.{put_other};
ghost use Rattle.mini_parts.specs.Seen.{statements_left};

use pgw_frames::{Bytes, NoMemory};
use session_blob::{BlobFault, Query, State, Statements, encode_with};
use std::alloc::Global;

/// Whether a statement of this name is there, where the unnamed one may have gone before.
pub(crate) fn has_left(named: bool, statements: &Statements, name: &str) -> bool
    ensures { result ≡ is_among name.now (prepared_names (statements_left named statements.now)) }
{
    if !named {
        return statements.has(name);
    }
    if name.is_empty() {
        return false;
    }
    statements.has(name)
}

/// The statement of this name, where the unnamed one may have gone before.
pub(crate) fn get_left<'a>(named: bool, statements: &'a Statements, name: &str) -> Option<&'a Query>
    ensures { option_map (λ q. prepared name.now q.now) result ≡ find_prepared name.now (statements_left named statements.now) }
{
    if !named {
        return statements.get(name);
    }
    if name.is_empty() {
        return None;
    }
    statements.get(name)
}

/// Puts a statement last, unless it has this name. Its own name is new. An `Err` changes nothing.
fn put_other(
    rest: &mut Statements,
    entry: Option<(&str, &Query)>,
    name: &str,
) -> Result<(), NoMemory>
    ensures { OnOk result (rest.new ≡ put_other name.now (option_map (λ x. prepared x.0.now x.1.now) entry.entry) rest.old) }
{
    let Some((of, query)) = entry else {
        return Ok(());
    };
    if of == name {
        return Ok(());
    }
    rest.put(of, query.query.as_str(), query.types.as_slice())
}

/// A copy of the statements but for the one of this name.
fn without(alloc: Global, statements: &Statements, name: &str) -> Result<Statements, NoMemory>
    ensures { IfOk result (λ r. r ≡ without_prepared name.now statements.now) }
{
    let mut rest = Statements::new(alloc);
    for place in 0..statements.len() {
        put_other(&mut rest, statements.at(place), name)?;
    }
    Ok(rest)
}

/// The bytes of a state without the statement of this name.
pub(crate) fn blob_without(alloc: Global, s: &State, name: &str) -> Result<Bytes, BlobFault>
    ensures value { Gives result (blob_of (with_statements s.now (without_prepared name.now s.now.statements))) }
    ensures spelled { IfOk result (λ b. IsSpelling (with_statements s.now (without_prepared name.now s.now.statements)) b) }
{
    let rest = without(alloc, &s.statements, name)?;
    encode_with(alloc, s, &rest)
}
