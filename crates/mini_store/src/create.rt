//! New tables.

ghost use Rattle.std.specs.Prelude.{◌≡◌, ◌&&◌, nat_le, nat_lt, length};
ghost use Rattle.mini_store.specs.Limits.{are_short_names, is_short};
ghost use Rattle.mini_store.specs.Done.{Does};
ghost use Rattle.mini_store.specs.Operations.{creates, is_named, names_twice};

use crate::answer::Answer;
use crate::code::SqlCode;
use crate::fault::{Fault, must};
use crate::limits::{MOST_COLUMNS, MOST_TABLES, are_short_names, is_short};
use crate::table::Table;
use crate::tables::Tables;
use sql_text::ColumnDef;

fn is_named(columns: &[ColumnDef], name: &str) -> bool
    ensures { result ≡ is_named name.now columns.now }
{
    columns.iter().any(|column| column.name.as_str() == name)
}

fn names_twice(columns: &[ColumnDef]) -> bool
    ensures { result ≡ names_twice columns.now }
{
    let mut rest = columns;
    while let Some((column, behind)) = rest.split_first() {
        if is_named(behind, column.name.as_str()) {
            return true;
        }
        rest = behind;
    }
    false
}

impl Tables {
    fn is_within(&self, name: &str, columns: &[ColumnDef]) -> bool
        ensures { result ≡ (is_short name.now && are_short_names columns.now && nat_lt (length self.now) 64 && nat_le (length columns.now) 16) }
    {
        is_short(name)
            && are_short_names(columns)
            && self.len() < MOST_TABLES
            && columns.len() <= MOST_COLUMNS
    }

    /// Makes a table, whose first column is its key. A fault changes nothing.
    pub(crate) fn create(&mut self, name: &str, columns: &[ColumnDef]) -> Result<Answer, Fault>
        ensures { Does result self.old self.new (creates self.old name.now columns.now) }
    {
        must(SqlCode::DuplicateTable, !self.has(name))?;
        must(SqlCode::DuplicateColumn, !names_twice(columns))?;
        must(SqlCode::ProgramLimitExceeded, self.is_within(name, columns))?;
        must(SqlCode::SyntaxError, !columns.is_empty())?;
        let table = Table::make(self.allocator(), name, columns)?;
        self.push(table)?;
        Ok(Answer::Made)
    }
}
