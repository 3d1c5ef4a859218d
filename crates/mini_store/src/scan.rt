//! Reading tables.

ghost use Rattle.std.specs.Prelude.{◌≡◌};
ghost use Rattle.mini_store.specs.Answers.{Gives};
ghost use Rattle.mini_store.specs.Done.{Tells};
ghost use Rattle.mini_store.specs.Operations.{match_of, selects, shapes};

use crate::answer::Answer;
use crate::code::SqlCode;
use crate::columns::{copy_columns, filter_column, picked_columns, places_of};
use crate::convert::hit_of;
use crate::datum::Match;
use crate::fault::{Fault, must};
use crate::limits::{are_short, is_short, is_small_filter};
use crate::row::Hit;
use crate::tables::Tables;
use pgw_frames::Text;
use sql_text::ColumnDef;
use std::alloc::Global;

pub(crate) fn match_of(
    alloc: Global,
    columns: &[ColumnDef],
    filter: &Option<Match>,
) -> Result<Option<Hit>, Fault>
    ensures { Gives result (match_of columns.now filter.now) }
{
    let column = filter_column(columns, filter)?;
    hit_of(alloc, column, filter)
}

impl Tables {
    /// The rows that match, and of each the columns of these names or all.
    pub(crate) fn select(
        &self,
        name: &str,
        names: &[Text],
        filter: &Option<Match>,
    ) -> Result<Answer, Fault>
        ensures { Tells result self.now (selects self.now name.now names.now filter.now) }
    {
        let alloc = self.allocator();
        let table = self.find(name)?;
        must(
            SqlCode::ProgramLimitExceeded,
            is_short(name) && are_short(names) && is_small_filter(filter),
        )?;
        let places = places_of(alloc, table.columns(), names)?;
        let hit = match_of(alloc, table.columns(), filter)?;
        let columns = picked_columns(alloc, places.as_slice(), table.columns())?;
        let rows = table.rows().picked(alloc, places.as_slice(), &hit)?;
        Ok(Answer::Rows { columns, rows })
    }

    /// The columns of a table.
    pub(crate) fn shape(&self, name: &str) -> Result<Answer, Fault>
        ensures { Tells result self.now (shapes self.now name.now) }
    {
        let table = self.find(name)?;
        must(SqlCode::ProgramLimitExceeded, is_short(name))?;
        let columns = copy_columns(self.allocator(), table.columns())?;
        Ok(Answer::Shape(columns))
    }
}
