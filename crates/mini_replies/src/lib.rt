//! What a mini session replies, message by message.
//!
//! Each function makes one message, or the greeting, as the definition of the mini session has it.
//! Nothing here knows when a message is sent.
//!
//! Source: PostgreSQL manual, "Message Formats" and "Error and Notice Message Fields" of the
//! frontend/backend protocol, version 3.0.
#![tactic(auto)]

mod errors;
mod greeting;
mod markers;
mod results;

pub use errors::error;
pub use greeting::greets;
pub use markers::{bind_complete, close_complete, empty_query, no_rows, parse_complete};
pub use results::{copy_in, counted, data_row, one_value, param_types, row_columns};

#[cfg(test)]
mod tests;
