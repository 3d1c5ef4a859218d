//! Statements.

use pgw_frames::Text;
use pgw_messages::Items;

/// What a column holds.
#[derive(Clone, Copy, Debug, PartialEq, Eq)]
pub enum Kind {
    /// A number of 64 bits with a sign.
    Int,
    Text,
}

/// A column of a table.
#[derive(Debug, Drop)]
pub struct ColumnDef {
    pub name: Text,
    pub kind: Kind,
}

pub type ColumnDefs = Items<ColumnDef>;

/// A value as a statement writes it.
#[derive(Debug, Drop)]
pub enum Value {
    Number(i64),
    Text(Text),
    /// A parameter, by its number of 1 to 9.
    Param(u8),
}

pub type Values = Items<Value>;

pub type Names = Items<Text>;

/// A column and a value, which are to be equal or made so.
#[derive(Debug, Drop)]
pub struct Equal {
    pub column: Text,
    pub value: Value,
}

/// A statement. Names are in lower case.
#[derive(Debug, Drop)]
pub enum Stmt {
    Create {
        table: Text,
        columns: ColumnDefs,
    },
    /// One row.
    Insert {
        table: Text,
        values: Values,
    },
    /// No names stand for all columns.
    Select {
        table: Text,
        names: Names,
        filter: Option<Equal>,
    },
    Update {
        table: Text,
        change: Equal,
        filter: Option<Equal>,
    },
    Delete {
        table: Text,
        filter: Option<Equal>,
    },
    Set {
        name: Text,
        value: Value,
    },
    Show(Text),
    Begin,
    Commit,
    Rollback,
    Copy(Text),
    /// Asks for the session's state, by a key of 128 bits.
    Transfer {
        high: u64,
        low: u64,
    },
    /// Gives the session a state, as base64.
    Restore(Text),
    Empty,
}
