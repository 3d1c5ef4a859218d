//! Printing a statement.

ghost use Rattle.std.specs.Prelude.{◌≡◌, ◌++◌, IfOk, OnOk};
ghost use Rattle.sql_text.specs.Printing.{behind_commas, column_text, equal_text, filter_text, kind_text, listed, names_text, stmt_text, value_text};

use crate::printer::Printer;
use crate::stmt::{ColumnDef, Equal, Kind, Names, Stmt, Value};
use pgw_frames::{NoMemory, Text};
use session_model::TransferKey;
use std::alloc::Global;

impl Printer {
    fn value(&mut self, value: &Value) -> Result<(), NoMemory>
        ensures { OnOk result (self.new ≡ self.old ++ value_text value.now) }
    {
        match value {
            Value::Number(n) => self.number(*n),
            Value::Text(t) => self.quoted(t.as_str()),
            Value::Param(n) => {
                self.put("$")?;
                self.param(*n)
            }
        }
    }

    fn kind(&mut self, kind: Kind) -> Result<(), NoMemory>
        ensures { OnOk result (self.new ≡ self.old ++ kind_text kind) }
    {
        match kind {
            Kind::Int => self.put(" INT"),
            Kind::Text => self.put(" TEXT"),
        }
    }

    fn column(&mut self, column: &ColumnDef) -> Result<(), NoMemory>
        ensures { OnOk result (self.new ≡ self.old ++ column_text column.now) }
    {
        self.name(&column.name)?;
        self.kind(column.kind)?;
        Ok(())
    }

    fn more_columns(&mut self, columns: &[ColumnDef]) -> Result<(), NoMemory>
        ensures { OnOk result (self.new ≡ self.old ++ behind_commas column_text columns.now) }
    {
        for column in columns {
            self.put(", ")?;
            self.column(column)?;
        }
        Ok(())
    }

    fn columns(&mut self, columns: &[ColumnDef]) -> Result<(), NoMemory>
        ensures { OnOk result (self.new ≡ self.old ++ listed column_text columns.now) }
    {
        let Some((first, others)) = columns.split_first() else {
            return Ok(());
        };
        self.column(first)?;
        self.more_columns(others)?;
        Ok(())
    }

    fn more_values(&mut self, values: &[Value]) -> Result<(), NoMemory>
        ensures { OnOk result (self.new ≡ self.old ++ behind_commas value_text values.now) }
    {
        for value in values {
            self.put(", ")?;
            self.value(value)?;
        }
        Ok(())
    }

    fn values(&mut self, values: &[Value]) -> Result<(), NoMemory>
        ensures { OnOk result (self.new ≡ self.old ++ listed value_text values.now) }
    {
        let Some((first, others)) = values.split_first() else {
            return Ok(());
        };
        self.value(first)?;
        self.more_values(others)?;
        Ok(())
    }

    fn more_names(&mut self, names: &[Text]) -> Result<(), NoMemory>
        ensures { OnOk result (self.new ≡ self.old ++ behind_commas (λ m. m) names.now) }
    {
        for name in names {
            self.put(", ")?;
            self.name(name)?;
        }
        Ok(())
    }

    /// The names, or `*` where there are none.
    fn names(&mut self, names: &[Text]) -> Result<(), NoMemory>
        ensures { OnOk result (self.new ≡ self.old ++ names_text names.now) }
    {
        let Some((first, others)) = names.split_first() else {
            return self.put("*");
        };
        self.name(first)?;
        self.more_names(others)?;
        Ok(())
    }

    fn equal(&mut self, equal: &Equal) -> Result<(), NoMemory>
        ensures { OnOk result (self.new ≡ self.old ++ equal_text equal.now) }
    {
        self.name(&equal.column)?;
        self.put(" = ")?;
        self.value(&equal.value)?;
        Ok(())
    }

    fn filter(&mut self, filter: &Option<Equal>) -> Result<(), NoMemory>
        ensures { OnOk result (self.new ≡ self.old ++ filter_text filter.now) }
    {
        match filter {
            Some(equal) => {
                self.put(" WHERE ")?;
                self.equal(equal)
            }
            None => Ok(()),
        }
    }

    fn table(&mut self, words: &str, table: &Text) -> Result<(), NoMemory>
        ensures { OnOk result (self.new ≡ self.old ++ words.now ++ table.now) }
    {
        self.put(words)?;
        self.name(table)?;
        Ok(())
    }

    fn create(&mut self, table: &Text, columns: &[ColumnDef]) -> Result<(), NoMemory>
        ensures { OnOk result (self.new ≡ self.old ++ stmt_text (Stmt.Create table.now columns.now)) }
    {
        self.table("CREATE TABLE ", table)?;
        self.put(" (")?;
        self.columns(columns)?;
        self.put(")")?;
        Ok(())
    }

    fn insert(&mut self, table: &Text, values: &[Value]) -> Result<(), NoMemory>
        ensures { OnOk result (self.new ≡ self.old ++ stmt_text (Stmt.Insert table.now values.now)) }
    {
        self.table("INSERT INTO ", table)?;
        self.put(" VALUES (")?;
        self.values(values)?;
        self.put(")")?;
        Ok(())
    }

    fn select(
        &mut self,
        table: &Text,
        names: &Names,
        filter: &Option<Equal>,
    ) -> Result<(), NoMemory>
        ensures { OnOk result (self.new ≡ self.old ++ stmt_text (Stmt.Select table.now names.now filter.now)) }
    {
        self.put("SELECT ")?;
        self.names(names.as_slice())?;
        self.table(" FROM ", table)?;
        self.filter(filter)?;
        Ok(())
    }

    fn update(
        &mut self,
        table: &Text,
        change: &Equal,
        filter: &Option<Equal>,
    ) -> Result<(), NoMemory>
        ensures { OnOk result (self.new ≡ self.old ++ stmt_text (Stmt.Update table.now change.now filter.now)) }
    {
        self.table("UPDATE ", table)?;
        self.put(" SET ")?;
        self.equal(change)?;
        self.filter(filter)?;
        Ok(())
    }

    fn delete(&mut self, table: &Text, filter: &Option<Equal>) -> Result<(), NoMemory>
        ensures { OnOk result (self.new ≡ self.old ++ stmt_text (Stmt.Delete table.now filter.now)) }
    {
        self.table("DELETE FROM ", table)?;
        self.filter(filter)?;
        Ok(())
    }

    fn set(&mut self, name: &Text, value: &Value) -> Result<(), NoMemory>
        ensures { OnOk result (self.new ≡ self.old ++ stmt_text (Stmt.Set name.now value.now)) }
    {
        self.table("SET ", name)?;
        self.put(" = ")?;
        self.value(value)?;
        Ok(())
    }

    fn copy(&mut self, table: &Text) -> Result<(), NoMemory>
        ensures { OnOk result (self.new ≡ self.old ++ stmt_text (Stmt.Copy table.now)) }
    {
        self.table("COPY ", table)?;
        self.put(" FROM STDIN")?;
        Ok(())
    }

    fn restore(&mut self, state: &Text) -> Result<(), NoMemory>
        ensures { OnOk result (self.new ≡ self.old ++ stmt_text (Stmt.Restore state.now)) }
    {
        self.put("SELECT crdb_internal.deserialize_session(decode(")?;
        self.quoted(state.as_str())?;
        self.put(",'base64'))")?;
        Ok(())
    }

    fn stmt(&mut self, stmt: &Stmt) -> Result<(), NoMemory>
        ensures { OnOk result (self.new ≡ self.old ++ stmt_text stmt.now) }
    {
        match stmt {
            Stmt::Create { table, columns } => self.create(table, columns.as_slice()),
            Stmt::Insert { table, values } => self.insert(table, values.as_slice()),
            Stmt::Select {
                table,
                names,
                filter,
            } => self.select(table, names, filter),
            Stmt::Update {
                table,
                change,
                filter,
            } => self.update(table, change, filter),
            Stmt::Delete { table, filter } => self.delete(table, filter),
            Stmt::Set { name, value } => self.set(name, value),
            Stmt::Show(name) => self.table("SHOW ", name),
            Stmt::Begin => self.put("BEGIN"),
            Stmt::Commit => self.put("COMMIT"),
            Stmt::Rollback => self.put("ROLLBACK"),
            Stmt::Copy(table) => self.copy(table),
            Stmt::Transfer { high, low } => self.transfer(TransferKey {
                high: *high,
                low: *low,
            }),
            Stmt::Restore(state) => self.restore(state),
            Stmt::Empty => Ok(()),
        }
    }
}

/// The statement as text: words in upper case, one space between tokens, but none behind an opening
/// bracket and before a closing one or a comma, and no `;`.
pub fn print_sql(alloc: Global, s: &Stmt) -> Result<Text, NoMemory>
    ensures { IfOk result (λ t. t ≡ stmt_text s.now) }
{
    let mut printer = Printer::new(alloc);
    printer.stmt(s)?;
    Ok(printer.into_text())
}
