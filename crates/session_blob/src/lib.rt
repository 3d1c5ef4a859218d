//! A session's state as bytes, version 1: read from them and written to them.
//!
//! A blob has the user, the database, the variables and the prepared statements of a session that
//! moves. A state has one spelling, and all other bytes are refused. Nothing here knows what a
//! variable or a statement means.
#![tactic(auto)]

mod decoding;
mod encoding;
mod fault;
mod laws;
mod reader;
mod state;
mod statements;
mod types;
mod variables;
mod writing;

pub use decoding::decode;
pub use encoding::{encode, encode_with};
pub use fault::BlobFault;
pub use laws::a_state_has_one_spelling;
pub use state::{MOST_BLOB, State};
pub use statements::{Query, Statements};
pub use types::TypeNumbers;
pub use variables::Variables;

#[cfg(test)]
mod tests;
