//! Operations.

use crate::datum::{GivenList, GivenRows, Match};
use pgw_frames::Text;
use sql_text::{ColumnDefs, Names};

/// What is asked of the tables. A filter takes the rows that match it; no filter takes all.
#[derive(Debug, Drop)]
pub enum Op {
    /// Makes a table, whose first column is its key.
    Create {
        table: Text,
        columns: ColumnDefs,
    },
    /// Adds one row.
    Insert {
        table: Text,
        values: GivenList,
    },
    /// No names stand for all columns.
    Select {
        table: Text,
        names: Names,
        filter: Option<Match>,
    },
    Update {
        table: Text,
        change: Match,
        filter: Option<Match>,
    },
    Delete {
        table: Text,
        filter: Option<Match>,
    },
    /// Adds rows, all or none.
    CopyIn {
        table: Text,
        rows: GivenRows,
    },
    /// Asks for a table's columns.
    Shape {
        table: Text,
    },
}
