//! The tables of a store, or of a transaction's copy.

ghost use Rattle.std.specs.Prelude.{◌≡◌, [], ◌∷◌, ◌++◌, length, min, IfOk, OnOk, OnErr};
ghost use Rattle.std.specs.List.{list_any, position};
ghost use Rattle.mini_store.specs.Answers.{Gives};
ghost use Rattle.mini_store.specs.Limits.{has_room};
ghost use Rattle.mini_store.specs.Shown.{shown};
ghost use Rattle.mini_store.specs.Tables.{is_called, rows_in, table_in, with_rows};

use crate::code::SqlCode;
use crate::fault::Fault;
use crate::limits::has_room;
use crate::rows::Rows;
use crate::table::Table;
use pgw_frames::NoMemory;
use std::alloc::Global;
use std::marker::Model;

/// Tables, in the order in which they were made. Contracts see the list.
#[derive(Drop)]
pub(crate) struct Tables {
    tables: Vec<Table>,
}

impl Model for Tables {
    ghost use Rattle.std.specs.Prelude.{List};
    ghost use Rattle.mini_store.specs.Tables.{TableOf};

    ghost Value = { List TableOf };

    ghost view = { λ t. t.tables.items };
}

impl Tables {
    pub(crate) fn new(alloc: Global) -> Tables
        ensures { result ≡ [] }
    {
        Tables {
            tables: Vec::new(alloc),
        }
    }

    pub(crate) fn allocator(&self) -> Global {
        *self.tables.allocator()
    }

    /// A copy that shares what doesn't change.
    pub(crate) fn copy(&self) -> Result<Tables, NoMemory>
        ensures { IfOk result (λ t. t ≡ self.now) }
    {
        let alloc = self.allocator();
        let mut tables = Vec::with_capacity(alloc, self.tables.len())?;
        for table in &self.tables {
            tables.push(table.copy(alloc)?)?;
        }
        Ok(Tables { tables })
    }

    pub(crate) fn len(&self) -> usize
        ensures { result ≡ length self.now }
    {
        self.tables.len()
    }

    /// How many rows all tables have; where a `usize` can't say it, the most that it can.
    fn rows_len(&self) -> usize
        ensures { result ≡ min (rows_in self.now) 18446744073709551615 }
    {
        let mut count: usize = 0;
        for table in &self.tables {
            count = count.saturating_add(table.rows().len());
        }
        count
    }

    /// Whether there is room for so many more rows.
    pub(crate) fn has_room(&self, more: usize) -> bool
        ensures { result ≡ has_room (rows_in self.now) more }
    {
        has_room(self.rows_len(), more)
    }

    pub(crate) fn has(&self, name: &str) -> bool
        ensures { result ≡ list_any (is_called name.now) self.now }
    {
        self.tables.iter().any(|table| table.is_called(name))
    }

    /// The table of this name.
    pub(crate) fn find(&self, name: &str) -> Result<&Table, Fault>
        ensures { Gives (shown result) (table_in self.now name.now) }
    {
        for table in &self.tables {
            if table.is_called(name) {
                return Ok(table);
            }
        }
        Err(Fault::Bad(SqlCode::UndefinedTable))
    }

    /// Adds a table. An `Err` changes nothing.
    pub(crate) fn push(&mut self, table: Table) -> Result<(), NoMemory>
        ensures ok { OnOk result (self.new ≡ self.old ++ table ∷ []) }
        ensures err { OnErr result (self.new ≡ self.old) }
    {
        self.tables.push(table)?;
        Ok(())
    }

    fn place_of(&self, name: &str) -> Option<usize>
        ensures { result ≡ position (is_called name.now) self.now }
    {
        self.tables.iter().position(|table| table.is_called(name))
    }

    #[tactic(auto, using(crate::proofs::Places::given, crate::proofs::Places::not_given))]
    /// Gives the table of this name other rows. It takes no memory.
    pub(crate) fn set_rows(&mut self, name: &str, rows: Rows)
        ensures { self.new ≡ with_rows name.now rows self.old }
    {
        if let Some(place) = self.place_of(name) {
            self.tables[place].set_rows(rows);
        }
    }
}
