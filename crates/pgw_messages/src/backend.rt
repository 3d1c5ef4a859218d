//! Messages of a server.

mod auth;
mod columns;
mod copy;
mod fields;
mod message;
mod notify;
mod reading;
mod row;
mod status;
mod writing;

pub use auth::AuthMsg;
pub use columns::{Column, Columns, columns_frame};
pub use copy::CopyMsg;
pub use fields::{Field, Fields};
pub use message::BackMsg;
pub use notify::NotifyMsg;
pub use reading::read_back;
pub use row::row_frame;
pub use writing::write_back;
