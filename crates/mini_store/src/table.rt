//! A table.

ghost use Rattle.std.specs.Prelude.{◌≡◌, IfOk, []};
ghost use Rattle.mini_store.specs.Tables.{is_called};

use crate::columns::copy_columns;
use crate::rows::Rows;
use pgw_frames::{NoMemory, Text};
use sql_text::{ColumnDef, ColumnDefs};
use std::alloc::Global;
use std::marker::Model;
use std::sync::Arc;

/// What of a table never changes.
#[derive(Drop)]
struct Head {
    name: Text,
    columns: ColumnDefs,
}

/// A table, whose copies share its name, columns and rows. Contracts see it as these three.
#[derive(Drop)]
pub(crate) struct Table {
    head: Arc<Head>,
    rows: Rows,
}

impl Model for Table {
    ghost use Rattle.mini_store.specs.Tables.{TableOf};
    ghost use Rattle.std.specs.Arc.{arc_value};

    ghost Value = { TableOf };

    ghost view = { λ t. record { name = (arc_value t.head).name; columns = (arc_value t.head).columns; rows = t.rows } };
}

impl Table {
    /// A table without rows.
    pub(crate) fn make(alloc: Global, name: &str, columns: &[ColumnDef]) -> Result<Table, NoMemory>
        ensures { IfOk result (λ t. t ≡ record { name = name.now; columns = columns.now; rows = [] }) }
    {
        let head = Head {
            name: Text::of(alloc, name)?,
            columns: copy_columns(alloc, columns)?,
        };
        Ok(Table {
            head: Arc::new(alloc, head)?,
            rows: Rows::new(alloc),
        })
    }

    pub(crate) fn copy(&self, alloc: Global) -> Result<Table, NoMemory>
        ensures { IfOk result (λ t. t ≡ self.now) }
    {
        Ok(Table {
            head: Arc::try_clone(&self.head)?,
            rows: self.rows.copy(alloc)?,
        })
    }

    pub(crate) fn is_called(&self, name: &str) -> bool
        ensures { result ≡ is_called name.now self.now }
    {
        self.head.name.as_str() == name
    }

    pub(crate) fn columns(&self) -> &[ColumnDef]
        ensures { result.now ≡ self.now.columns }
    {
        self.head.columns.as_slice()
    }

    pub(crate) fn rows(&self) -> &Rows
        ensures { result.now ≡ self.now.rows }
    {
        &self.rows
    }

    pub(crate) fn set_rows(&mut self, rows: Rows)
        ensures { self.new ≡ record self.old { rows = rows } }
    {
        self.rows = rows;
    }
}
