//! What messages hold, seen in their bodies: no view takes memory.

mod column;
mod columns;
mod fields;
pub(crate) mod front;
mod key;
mod owned_fields;
mod row;

pub use column::ColumnView;
pub use columns::ColumnsView;
pub use fields::FieldsView;
pub use owned_fields::OwnedFields;
pub use row::RowView;
