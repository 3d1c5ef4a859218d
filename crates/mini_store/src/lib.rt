//! The store of the mini pod: tables of typed columns, and what an operation answers and changes.
//!
//! A store is a sequential object. It does single operations, and whole transactions: a transaction
//! works on a copy, and is told what the store would answer now in place of what it was answered then.
//! Nothing here reads SQL text, waits or keeps anything when the program ends. There are no indexes but
//! the key, no joins, no defaults and no NULL.
#![tactic(auto)]

mod answer;
mod change;
mod code;
mod columns;
mod command;
mod convert;
mod create;
mod datum;
mod fault;
mod laws;
mod limits;
mod op;
mod operation;
mod order;
mod page;
mod replay;
mod row;
mod row_lists;
mod rows;
mod same;
mod scan;
mod store;
mod table;
mod tables;

pub use answer::{Answer, Past, PastStep};
pub use code::SqlCode;
pub use command::StoreCommand;
pub use datum::{Datum, DatumRow, DatumRows, Given, GivenList, GivenRows, Match};
pub use laws::rows_always_rise;
pub use op::Op;
pub use store::Store;

#[cfg(test)]
mod tests;
