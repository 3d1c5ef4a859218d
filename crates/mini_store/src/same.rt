//! Whether two answers are equal.

ghost use Rattle.std.specs.Prelude.{◌≡◌};
ghost use Rattle.mini_store.specs.Transactions.{are_rows, are_same, is_bad, is_committed, is_conflict, is_count, is_made, is_same, is_same_code, is_same_column, is_same_datum, is_same_kind, is_same_row, is_same_shape, is_shape};

use crate::answer::Answer;
use crate::code::SqlCode;
use crate::datum::{Datum, DatumRow};
use sql_text::{ColumnDef, Kind};

fn is_same_kind(a: Kind, b: Kind) -> bool
    ensures { result ≡ is_same_kind a b }
{
    match a {
        Kind::Int => match b {
            Kind::Int => true,
            Kind::Text => false,
        },
        Kind::Text => match b {
            Kind::Int => false,
            Kind::Text => true,
        },
    }
}

fn is_same_column(a: &ColumnDef, b: &ColumnDef) -> bool
    ensures { result ≡ is_same_column a.now b.now }
{
    a.name.as_str() == b.name.as_str() && is_same_kind(a.kind, b.kind)
}

fn is_same_shape(a: &[ColumnDef], b: &[ColumnDef]) -> bool
    ensures { result ≡ is_same_shape a.now b.now }
{
    let mut rest = b;
    for column in a {
        let Some((other, behind)) = rest.split_first() else {
            return false;
        };
        if !is_same_column(column, other) {
            return false;
        }
        rest = behind;
    }
    rest.is_empty()
}

fn is_same_row(a: &[Datum], b: &[Datum]) -> bool
    ensures { result ≡ is_same_row a.now b.now }
{
    let mut rest = b;
    for datum in a {
        let Some((other, behind)) = rest.split_first() else {
            return false;
        };
        if !datum.is_same(other) {
            return false;
        }
        rest = behind;
    }
    rest.is_empty()
}

fn are_same_rows(a: &[DatumRow], b: &[DatumRow]) -> bool
    ensures { result ≡ are_same is_same_row a.now b.now }
{
    let mut rest = b;
    for row in a {
        let Some((other, behind)) = rest.split_first() else {
            return false;
        };
        if !is_same_row(row.as_slice(), other.as_slice()) {
            return false;
        }
        rest = behind;
    }
    rest.is_empty()
}

fn is_same_code(a: SqlCode, b: SqlCode) -> bool
    ensures { result ≡ is_same_code a b }
{
    a.digits() == b.digits()
}

impl Answer {
    fn is_made(&self) -> bool
        ensures { result ≡ is_made self.now }
    {
        match self {
            Answer::Made => true,
            Answer::Count(_)
            | Answer::Rows { .. }
            | Answer::Shape(_)
            | Answer::Bad(_)
            | Answer::Committed
            | Answer::Conflict(_) => false,
        }
    }

    fn is_count(&self, count: u64) -> bool
        ensures { result ≡ is_count count self.now }
    {
        match self {
            Answer::Count(n) => count == *n,
            Answer::Made
            | Answer::Rows { .. }
            | Answer::Shape(_)
            | Answer::Bad(_)
            | Answer::Committed
            | Answer::Conflict(_) => false,
        }
    }

    fn are_rows(&self, columns: &[ColumnDef], rows: &[DatumRow]) -> bool
        ensures { result ≡ are_rows columns.now rows.now self.now }
    {
        match self {
            Answer::Rows {
                columns: cs,
                rows: rs,
            } => is_same_shape(columns, cs.as_slice()) && are_same_rows(rows, rs.as_slice()),
            Answer::Made
            | Answer::Count(_)
            | Answer::Shape(_)
            | Answer::Bad(_)
            | Answer::Committed
            | Answer::Conflict(_) => false,
        }
    }

    fn is_shape(&self, columns: &[ColumnDef]) -> bool
        ensures { result ≡ is_shape columns.now self.now }
    {
        match self {
            Answer::Shape(cs) => is_same_shape(columns, cs.as_slice()),
            Answer::Made
            | Answer::Count(_)
            | Answer::Rows { .. }
            | Answer::Bad(_)
            | Answer::Committed
            | Answer::Conflict(_) => false,
        }
    }

    fn is_bad(&self, code: SqlCode) -> bool
        ensures { result ≡ is_bad code self.now }
    {
        match self {
            Answer::Bad(c) => is_same_code(code, *c),
            Answer::Made
            | Answer::Count(_)
            | Answer::Rows { .. }
            | Answer::Shape(_)
            | Answer::Committed
            | Answer::Conflict(_) => false,
        }
    }

    fn is_committed(&self) -> bool
        ensures { result ≡ is_committed self.now }
    {
        match self {
            Answer::Committed => true,
            Answer::Made
            | Answer::Count(_)
            | Answer::Rows { .. }
            | Answer::Shape(_)
            | Answer::Bad(_)
            | Answer::Conflict(_) => false,
        }
    }

    fn is_conflict(&self, place: u32) -> bool
        ensures { result ≡ is_conflict place self.now }
    {
        match self {
            Answer::Conflict(n) => place == *n,
            Answer::Made
            | Answer::Count(_)
            | Answer::Rows { .. }
            | Answer::Shape(_)
            | Answer::Bad(_)
            | Answer::Committed => false,
        }
    }

    pub(crate) fn is_same(&self, other: &Answer) -> bool
        ensures { result ≡ is_same self.now other.now }
    {
        match self {
            Answer::Made => other.is_made(),
            Answer::Count(n) => other.is_count(*n),
            Answer::Rows { columns, rows } => other.are_rows(columns.as_slice(), rows.as_slice()),
            Answer::Shape(columns) => other.is_shape(columns.as_slice()),
            Answer::Bad(code) => other.is_bad(*code),
            Answer::Committed => other.is_committed(),
            Answer::Conflict(place) => other.is_conflict(*place),
        }
    }
}
