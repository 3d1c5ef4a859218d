//! Values: those that a table holds, and those that an operation is given.

use pgw_frames::Text;
use pgw_messages::Items;

/// What stands in a row under a column.
#[derive(Debug, Drop)]
pub enum Datum {
    Number(i64),
    Text(Text),
}

/// The values of a row, a column each.
pub type DatumRow = Items<Datum>;

pub type DatumRows = Items<DatumRow>;

/// A value as it is given.
#[derive(Debug, Drop)]
pub enum Given {
    Number(i64),
    Text(Text),
    /// The text of a parameter, or a value of a copied line: its column says what it is.
    Bound(Text),
}

pub type GivenList = Items<Given>;

pub type GivenRows = Items<GivenList>;

/// A column and a value, which are to be equal or made so.
#[derive(Debug, Drop)]
pub struct Match {
    pub column: Text,
    pub value: Given,
}
