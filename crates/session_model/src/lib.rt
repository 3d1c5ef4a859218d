//! What a pod's session is: a state that is told messages, and the laws that it keeps.
//!
//! A kind of session is a trait whose definition is a set of functions on values. Beside it stand the
//! texts of a transfer, the point at which a session may be moved, and the session that was never
//! moved, with what its client hears. Nothing here knows a link, a buffer or a key of the proxy.
//!
//! Source: PostgreSQL manual, "Message Flow" of the frontend/backend protocol, version 3.0. The texts
//! of a transfer and the laws are this project's own.
#![tactic(auto)]

mod pod_session;
mod result_set;
mod session;
mod shared_store;
mod solo;
mod texts;
mod transfer;

pub use pod_session::PodSession;
pub use result_set::{BOOLEAN, ColumnType, TEXT, column, complete, ready, row};
pub use session::Session;
pub use shared_store::{SharedStore, answer_of};
pub use solo::Solo;
pub use texts::{
    digits_reply, digits_row, key_text, restore_columns, restore_reply, restore_row, restore_tag,
    restore_text, transfer_columns, transfer_reply, transfer_tag, transfer_text,
};
pub use transfer::{Dump, TransferKey};

#[cfg(test)]
mod tests;
