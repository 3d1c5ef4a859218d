//! The statements of the mini pod: read from text, and printed.
//!
//! A text is cut into tokens over its whole length, and the tokens are read as one statement. What is
//! at fault is told by the byte where the first token at fault begins. No word is reserved. There are no
//! comments, no joins, no expressions and no NULL.
#![tactic(auto)]

mod fault;
mod lexer;
mod lists;
mod number;
mod parser;
mod print;
mod printer;
mod reading;
mod statements;
mod stmt;
mod token;
mod values;

pub use fault::SqlFault;
pub use lexer::tokens;
pub use number::read_number;
pub use print::print_sql;
pub use reading::read_sql;
pub use stmt::{ColumnDef, ColumnDefs, Equal, Kind, Names, Stmt, Value, Values};
pub use token::{Token, TokenKind, TokenList};

#[cfg(test)]
mod tests;
