//! A column of a RowDescription.

/// A column of a result, with its name where it stands in the message. The fields are those of `Column`.
#[derive(Clone, Copy, Debug)]
pub struct ColumnView<'a> {
    pub name: &'a str,
    pub table: u32,
    pub column: u16,
    pub kind: u32,
    pub size: i16,
    pub modifier: i32,
    pub format: u16,
}
