//! What the messages of the protocol hold, read from frames and written to them.
//!
//! Each message of a client and of a server has a type here, and the startup packet has its parameters.
//! A message is read from left to right, and its first fault is the refusal. Nothing here knows when a
//! message may come, or cuts a stream into frames.
//!
//! Not read: the body of FunctionCall and of the password family, and what an authentication message has
//! behind its code; these stay bytes. Of a server, CopyOutResponse, CopyBothResponse, CopyData, CopyDone,
//! FunctionCallResponse and NegotiateProtocolVersion are unknown types.
//!
//! A view shows what a body holds without memory, by the same definitions as the reader.
//!
//! Source: PostgreSQL manual, "Message Formats", "Message Data Types" and "Error and Notice Message
//! Fields" of the frontend/backend protocol, version 3.0.
#![tactic(auto)]

mod backend;
mod fault;
mod frontend;
mod gathering;
mod item;
mod items;
mod laws;
mod numbers;
mod pair;
mod params;
mod pod_key;
mod reader;
mod startup;
pub mod tags;
mod values;
mod view;
mod writer;

pub use backend::{
    AuthMsg, BackMsg, Column, Columns, CopyMsg, Field, Fields, NotifyMsg, columns_frame, read_back,
    row_frame, write_back,
};
pub use fault::MsgFault;
pub use frontend::{BindMsg, ExecuteMsg, FrontMsg, ParseMsg, Part, read_front, write_front};
pub use items::Items;
pub use laws::{messages_are_read_again, messages_can_be_written, params_are_read_again};
pub use numbers::{Formats, Types};
pub use params::{Pair, Params};
pub use pod_key::PodKey;
pub use startup::{read_params, startup_bytes, startup_bytes_with};
pub use values::Row;
pub use view::{ColumnView, ColumnsView, FieldsView, OwnedFields, RowView};

#[cfg(test)]
mod tests;
