//! Rows that are added, changed or deleted.

ghost use Rattle.std.specs.Prelude.{◌≡◌, ◌∷◌, [], ◌&&◌};
ghost use Rattle.std.specs.List.{list_all};
ghost use Rattle.mini_store.specs.Answers.{Gives};
ghost use Rattle.mini_store.specs.Done.{Does};
ghost use Rattle.mini_store.specs.Limits.{are_small, is_short};
ghost use Rattle.mini_store.specs.Tables.{with_rows};
ghost use Rattle.mini_store.specs.Operations.{adding, deleting, puts, setting_of, updating};

use crate::answer::Answer;
use crate::code::SqlCode;
use crate::columns::{column_of, filter_column};
use crate::convert::{datum_of, filter_no_number, hit_of, is_no_number, new_rows};
use crate::datum::{Datum, GivenList, Match};
use crate::fault::{Fault, must};
use crate::limits::{are_small, are_small_rows, is_short, is_small_filter, is_small_match};
use crate::row::Hit;
use crate::rows::Rows;
use crate::scan::match_of;
use crate::tables::Tables;
use sql_text::ColumnDef;
use std::alloc::Global;

/// What an operation makes of a table: so many rows are told, and these it has.
#[derive(Drop)]
pub(crate) struct Change {
    count: usize,
    rows: Rows,
}

/// The value that an update puts at a place, and what it asks of the rows where it does.
#[derive(Drop)]
pub(crate) struct Setting {
    place: usize,
    value: Datum,
    hit: Option<Hit>,
}

fn setting_of(
    alloc: Global,
    columns: &[ColumnDef],
    change: &Match,
    filter: &Option<Match>,
) -> Result<Setting, Fault>
    ensures { Gives result (setting_of columns.now change.now filter.now) }
{
    let column = column_of(columns, change.column.as_str())?;
    let asked = filter_column(columns, filter)?;
    must(
        SqlCode::InvalidTextRepresentation,
        !(is_no_number(column.kind, &change.value) || filter_no_number(asked, filter)),
    )?;
    let value = datum_of(alloc, column.kind, &change.value)?;
    let hit = hit_of(alloc, asked, filter)?;
    Ok(Setting {
        place: column.place,
        value,
        hit,
    })
}

impl Tables {
    fn adding(&self, name: &str, is_within: bool, rows: &[GivenList]) -> Result<Change, Fault>
        ensures { Gives result (adding self.now name.now is_within rows.now) }
    {
        let table = self.find(name)?;
        must(SqlCode::ProgramLimitExceeded, is_within)?;
        let fits = self.has_room(rows.len());
        let new = new_rows(self.allocator(), fits, table.columns(), rows)?;
        let rows_now = table.rows().added(self.allocator(), new.as_slice())?;
        Ok(Change {
            count: rows.len(),
            rows: rows_now,
        })
    }

    fn deleting(&self, name: &str, filter: &Option<Match>) -> Result<Change, Fault>
        ensures { Gives result (deleting self.now name.now filter.now) }
    {
        let table = self.find(name)?;
        must(
            SqlCode::ProgramLimitExceeded,
            is_short(name) && is_small_filter(filter),
        )?;
        let hit = match_of(self.allocator(), table.columns(), filter)?;
        let rows = table.rows().without(self.allocator(), &hit)?;
        Ok(Change {
            count: table.rows().count(&hit)?,
            rows,
        })
    }

    fn updating(&self, name: &str, change: &Match, filter: &Option<Match>) -> Result<Change, Fault>
        ensures { Gives result (updating self.now name.now change.now filter.now) }
    {
        let table = self.find(name)?;
        must(
            SqlCode::ProgramLimitExceeded,
            is_short(name) && is_small_match(change) && is_small_filter(filter),
        )?;
        let s = setting_of(self.allocator(), table.columns(), change, filter)?;
        let rows = table
            .rows()
            .changed(self.allocator(), s.place, &s.value, &s.hit)?;
        Ok(Change {
            count: table.rows().count(&s.hit)?,
            rows,
        })
    }

    fn put(&mut self, name: &str, change: Change) -> Answer
        ensures answer { result ≡ Answer.Count change.count }
        ensures tables { self.new ≡ with_rows name.now change.rows self.old }
    {
        self.set_rows(name, change.rows);
        Answer::Count(change.count as u64)
    }

    /// Adds a row. A fault changes nothing.
    pub(crate) fn insert(&mut self, name: &str, values: &GivenList) -> Result<Answer, Fault>
        ensures { Does result self.old self.new (puts self.old name.now (adding self.old name.now (is_short name.now && are_small values.now) (values.now ∷ []))) }
    {
        let is_within = is_short(name) && are_small(values.as_slice());
        let change = self.adding(name, is_within, std::slice::from_ref(values))?;
        Ok(self.put(name, change))
    }

    /// Adds rows, all or none. A fault changes nothing.
    pub(crate) fn copy_in(&mut self, name: &str, rows: &[GivenList]) -> Result<Answer, Fault>
        ensures { Does result self.old self.new (puts self.old name.now (adding self.old name.now (is_short name.now && list_all are_small rows.now) rows.now)) }
    {
        let is_within = is_short(name) && are_small_rows(rows);
        let change = self.adding(name, is_within, rows)?;
        Ok(self.put(name, change))
    }

    /// Deletes the rows that match. A fault changes nothing.
    pub(crate) fn delete(&mut self, name: &str, filter: &Option<Match>) -> Result<Answer, Fault>
        ensures { Does result self.old self.new (puts self.old name.now (deleting self.old name.now filter.now)) }
    {
        let change = self.deleting(name, filter)?;
        Ok(self.put(name, change))
    }

    /// Changes the rows that match. All rows are made before their keys are compared. A fault changes
    /// nothing.
    pub(crate) fn update(
        &mut self,
        name: &str,
        change: &Match,
        filter: &Option<Match>,
    ) -> Result<Answer, Fault>
        ensures { Does result self.old self.new (puts self.old name.now (updating self.old name.now change.now filter.now)) }
    {
        let change = self.updating(name, change, filter)?;
        Ok(self.put(name, change))
    }
}
