//! One statement.

ghost use Rattle.sql_text.specs.Answers.{Gives};
ghost use Rattle.sql_text.specs.Grammar.{Reads, finish_form, copy_form, create_form, delete_form, equal_form, filter_form, insert_form, names_form, restore_form, rows_form, select_form, set_form, show_form, statement_form, to_form, transfer_form, update_form, word_form};

use crate::fault::SqlFault;
use crate::parser::Parser;
use crate::stmt::{ColumnDef, Equal, Names, Stmt, Value};
use pgw_frames::Text;
use pgw_messages::Items;

/// How many names a Select has behind its first, at most.
const MORE_NAMES: usize = 15;

impl<'a> Parser<'a> {
    /// A column, `=` and a value.
    fn equal(&mut self) -> Result<Equal, SqlFault>
        ensures { Reads result self.new (equal_form self.old) }
    {
        let column = self.name()?;
        self.skip("=")?;
        let value = self.value()?;
        Ok(Equal { column, value })
    }

    /// `WHERE` and what is to be equal, or nothing.
    fn filter(&mut self) -> Result<Option<Equal>, SqlFault>
        ensures { Reads result self.new (filter_form self.old) }
    {
        if !self.takes("where") {
            return Ok(None);
        }
        Ok(Some(self.equal()?))
    }

    fn create(&mut self) -> Result<Stmt, SqlFault>
        ensures { Reads result self.new (create_form self.old) }
    {
        self.skip("table")?;
        let table = self.name()?;
        let columns = self.list::<ColumnDef>()?;
        Ok(Stmt::Create { table, columns })
    }

    fn insert(&mut self) -> Result<Stmt, SqlFault>
        ensures { Reads result self.new (insert_form self.old) }
    {
        self.skip("into")?;
        let table = self.name()?;
        self.skip("values")?;
        let values = self.list::<Value>()?;
        Ok(Stmt::Insert { table, values })
    }

    /// `*`, or names.
    fn names(&mut self) -> Result<Names, SqlFault>
        ensures { Reads result self.new (names_form self.old) }
    {
        if self.takes("*") {
            return Ok(Items::new(self.allocator()));
        }
        self.items::<Text>(MORE_NAMES)
    }

    fn select(&mut self) -> Result<Stmt, SqlFault>
        ensures { Reads result self.new (select_form self.old) }
    {
        if self.sees_both("crdb_internal", ".") {
            return self.restore();
        }
        self.rows()
    }

    /// What asks for a table's rows.
    fn rows(&mut self) -> Result<Stmt, SqlFault>
        ensures { Reads result self.new (rows_form self.old) }
    {
        let names = self.names()?;
        self.skip("from")?;
        let table = self.name()?;
        let filter = self.filter()?;
        Ok(Stmt::Select {
            table,
            names,
            filter,
        })
    }

    /// What gives a session its state.
    fn restore(&mut self) -> Result<Stmt, SqlFault>
        ensures { Reads result self.new (restore_form self.old) }
    {
        self.skip("crdb_internal")?;
        self.skip(".")?;
        self.skip("deserialize_session")?;
        self.skip("(")?;
        self.skip("decode")?;
        self.skip("(")?;
        let state = self.quoted()?;
        self.skip(",")?;
        self.literal("'base64'")?;
        self.skip(")")?;
        self.skip(")")?;
        Ok(Stmt::Restore(state))
    }

    fn update(&mut self) -> Result<Stmt, SqlFault>
        ensures { Reads result self.new (update_form self.old) }
    {
        let table = self.name()?;
        self.skip("set")?;
        let change = self.equal()?;
        let filter = self.filter()?;
        Ok(Stmt::Update {
            table,
            change,
            filter,
        })
    }

    fn delete(&mut self) -> Result<Stmt, SqlFault>
        ensures { Reads result self.new (delete_form self.old) }
    {
        self.skip("from")?;
        let table = self.name()?;
        let filter = self.filter()?;
        Ok(Stmt::Delete { table, filter })
    }

    /// `TO` or `=`.
    fn to(&mut self) -> Result<(), SqlFault>
        ensures { Reads result self.new (to_form self.old) }
    {
        if self.takes("to") {
            return Ok(());
        }
        self.skip("=")
    }

    fn set(&mut self) -> Result<Stmt, SqlFault>
        ensures { Reads result self.new (set_form self.old) }
    {
        let name = self.name()?;
        self.to()?;
        let value = self.value()?;
        Ok(Stmt::Set { name, value })
    }

    fn show(&mut self) -> Result<Stmt, SqlFault>
        ensures { Reads result self.new (show_form self.old) }
    {
        if self.sees_both("transfer", "state") {
            return self.transfer();
        }
        Ok(Stmt::Show(self.name()?))
    }

    /// What asks for a session's state.
    fn transfer(&mut self) -> Result<Stmt, SqlFault>
        ensures { Reads result self.new (transfer_form self.old) }
    {
        self.skip("transfer")?;
        self.skip("state")?;
        self.skip("with")?;
        let (high, low) = self.key()?;
        Ok(Stmt::Transfer { high, low })
    }

    fn copy(&mut self) -> Result<Stmt, SqlFault>
        ensures { Reads result self.new (copy_form self.old) }
    {
        let table = self.name()?;
        self.skip("from")?;
        self.skip("stdin")?;
        Ok(Stmt::Copy(table))
    }

    /// The statement, of which no token is read yet.
    #[tactic(auto, unfolding(crate::specs::Grammar::statement_form))]
    pub(crate) fn statement(&mut self) -> Result<Stmt, SqlFault>
        ensures { Reads result self.new (statement_form self.old) }
    {
        if self.is_empty() || self.sees(";") {
            return Ok(Stmt::Empty);
        }
        if self.takes("create") {
            return self.create();
        }
        if self.takes("insert") {
            return self.insert();
        }
        if self.takes("select") {
            return self.select();
        }
        if self.takes("update") {
            return self.update();
        }
        if self.takes("delete") {
            return self.delete();
        }
        if self.takes("set") {
            return self.set();
        }
        if self.takes("show") {
            return self.show();
        }
        if self.takes("copy") {
            return self.copy();
        }
        self.transaction()
    }

    /// A statement of one word.
    fn transaction(&mut self) -> Result<Stmt, SqlFault>
        ensures { Reads result self.new (word_form self.old) }
    {
        if self.takes("begin") {
            return Ok(Stmt::Begin);
        }
        if self.takes("commit") {
            return Ok(Stmt::Commit);
        }
        if self.takes("rollback") {
            return Ok(Stmt::Rollback);
        }
        Err(self.wrong())
    }

    /// One `;` may follow, and nothing else.
    pub(crate) fn finish(&mut self) -> Result<(), SqlFault>
        ensures { Gives result (finish_form self.old) }
    {
        self.takes(";");
        if !self.is_empty() {
            return Err(self.wrong());
        }
        Ok(())
    }
}
