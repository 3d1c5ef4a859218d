//! Reading a blob.

ghost use Rattle.std.specs.Prelude.{◌≡◌, [], ◌∷◌, ◌++◌, length};
ghost use Rattle.std.specs.Int.{w32};
ghost use Rattle.pgw_messages.specs.Reading.{Reads, ReadsAs, mapped, many_at, number_at, list_at, whole, Gives as GivesField};
ghost use Rattle.session_blob.specs.Blob.{IsSpelling};
ghost use Rattle.session_blob.specs.Entries.{variable_names, prepared_names};
ghost use Rattle.session_blob.specs.Faults.{Gives};
ghost use Rattle.session_blob.specs.Reading.{name_at, named_at, named_list_at, variable_at, prepared_at, entry_at, state_at, state_of};

use crate::fault::BlobFault;
use crate::reader::Reader;
use crate::state::{MOST_BLOB, State};
use crate::statements::{Query, Statements};
use crate::types::TypeNumbers;
use crate::variables::Variables;
use pgw_frames::Text;
use pgw_messages::MsgFault;
use std::alloc::Global;

/// Adds the next variable.
fn variable(r: &mut Reader<'_>, variables: &mut Variables) -> Result<(), MsgFault>
    ensures { ReadsAs (λ _. variables.new) result r.new (mapped (λ q. variables.old ++ q ∷ []) (entry_at variable_at (variable_names variables.old) r.old)) }
{
    let name = r.text()?;
    if variables.has(name) {
        return Err(MsgFault::BadValue);
    }
    let value = r.text()?;
    variables.put(name, value)?;
    Ok(())
}

/// So many variables.
fn variables_of(alloc: Global, r: &mut Reader<'_>, count: u16) -> Result<Variables, MsgFault>
    ensures { Reads result r.new (named_at (λ q. q.name) variable_at count [] r.old) }
{
    let mut variables = Variables::new(alloc);
    for _ in 0..count {
        variable(r, &mut variables)?;
    }
    Ok(variables)
}

/// A count of variables, and as many.
#[tactic(auto, unfolding(crate::specs::Reading::named_list_at))]
fn variables(alloc: Global, r: &mut Reader<'_>) -> Result<Variables, MsgFault>
    ensures { Reads result r.new (named_list_at (λ q. q.name) variable_at r.old) }
{
    let count = r.u16()?;
    let variables = variables_of(alloc, r, count)?;
    Ok(variables)
}

/// So many types.
fn types_of(alloc: Global, r: &mut Reader<'_>, count: u16) -> Result<TypeNumbers, MsgFault>
    ensures { Reads result r.new (many_at (number_at w32) count r.old) }
{
    let mut types = TypeNumbers::new(alloc);
    for _ in 0..count {
        types.push(r.u32()?)?;
    }
    Ok(types)
}

/// A count of types, and as many.
#[tactic(auto, unfolding(pgw_messages::specs::Reading::list_at))]
fn types(alloc: Global, r: &mut Reader<'_>) -> Result<TypeNumbers, MsgFault>
    ensures { Reads result r.new (list_at (number_at w32) r.old) }
{
    let count = r.u16()?;
    let types = types_of(alloc, r, count)?;
    Ok(types)
}

/// Adds the next statement.
fn statement(alloc: Global, r: &mut Reader<'_>, statements: &mut Statements) -> Result<(), MsgFault>
    ensures { ReadsAs (λ _. statements.new) result r.new (mapped (λ x. statements.old ++ x ∷ []) (entry_at prepared_at (prepared_names statements.old) r.old)) }
{
    let name = r.text()?;
    if statements.has(name) {
        return Err(MsgFault::BadValue);
    }
    let query = Text::of(alloc, r.text()?)?;
    let types = types(alloc, r)?;
    statements.put_owned(name, Query { query, types })?;
    Ok(())
}

/// So many statements.
fn statements_of(alloc: Global, r: &mut Reader<'_>, count: u16) -> Result<Statements, MsgFault>
    ensures { Reads result r.new (named_at (λ x. x.name) prepared_at count [] r.old) }
{
    let mut statements = Statements::new(alloc);
    for _ in 0..count {
        statement(alloc, r, &mut statements)?;
    }
    Ok(statements)
}

/// A count of statements, and as many.
#[tactic(auto, unfolding(crate::specs::Reading::named_list_at))]
fn statements(alloc: Global, r: &mut Reader<'_>) -> Result<Statements, MsgFault>
    ensures { Reads result r.new (named_list_at (λ x. x.name) prepared_at r.old) }
{
    let count = r.u16()?;
    let statements = statements_of(alloc, r, count)?;
    Ok(statements)
}

#[tactic(auto, unfolding(crate::specs::Reading::state_at))]
fn state(alloc: Global, r: &mut Reader<'_>) -> Result<State, MsgFault>
    ensures { Reads result r.new (state_at r.old) }
{
    r.version()?;
    let user = Text::of(alloc, r.text()?)?;
    let database = Text::of(alloc, r.text()?)?;
    let variables = variables(alloc, r)?;
    let statements = statements(alloc, r)?;
    Ok(State {
        user,
        database,
        variables,
        statements,
    })
}

/// The state that all these bytes are of.
fn whole_state(alloc: Global, b: &[u8]) -> Result<State, MsgFault>
    ensures { GivesField result (whole (state_at b.now)) }
{
    let mut r = Reader::new(b);
    let s = state(alloc, &mut r)?;
    r.finish()?;
    Ok(s)
}

/// The state that has these bytes.
#[tactic(auto, unfolding(crate::specs::Reading::state_of))]
pub fn decode(alloc: Global, b: &[u8]) -> Result<State, BlobFault>
    ensures { Gives result (state_of b.now) }
{
    if b.len() > MOST_BLOB {
        return Err(BlobFault::TooLarge(b.len() as u64));
    }
    let s = whole_state(alloc, b)?;
    Ok(s)
}
