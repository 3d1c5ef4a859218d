//! Answers.

use crate::code::SqlCode;
use crate::datum::DatumRows;
use crate::op::Op;
use pgw_messages::Items;
use sql_text::ColumnDefs;

/// What a store answers.
#[derive(Debug, Drop)]
pub enum Answer {
    /// A table was made.
    Made,
    /// So many rows were added, changed or deleted.
    Count(u64),
    Rows {
        columns: ColumnDefs,
        rows: DatumRows,
    },
    Shape(ColumnDefs),
    /// The operation was refused, and changed nothing.
    Bad(SqlCode),
    Committed,
    /// The first place of a transaction, counted from 0, whose answer would differ now.
    Conflict(u32),
}

/// An operation of a transaction, and what it was answered.
#[derive(Debug, Drop)]
pub struct PastStep {
    pub op: Op,
    pub answer: Answer,
}

/// The operations of a transaction so far.
pub type Past = Items<PastStep>;
