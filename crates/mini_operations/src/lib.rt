//! What a statement asks of the store: its operation, with the texts of its parameters.
//!
//! A statement is lent, and its operation is made as a copy, since a prepared statement is run more than
//! once; so are the operations of a transaction, which are told again with each further one. Nothing here
//! knows a session, or what an answer means.
#![tactic(auto)]

mod copies;
mod operations;
mod values;

pub use copies::{copy_answer, copy_column, copy_columns, copy_names, copy_op, copy_past};
pub use operations::{copy_in, create, delete, insert, select, shape, update};
pub use values::value_text;

#[cfg(test)]
mod tests;
