//! Copies of operations and of their answers, as a transaction keeps and tells them.

ghost use Rattle.std.specs.Prelude.{◌≡◌, IfOk};

use mini_store::{
    Answer, Datum, DatumRow, DatumRows, Given, GivenList, GivenRows, Match, Op, Past, PastStep,
};
use pgw_frames::{NoMemory, Text};
use pgw_messages::Items;
use sql_text::{ColumnDef, ColumnDefs, Names};
use std::alloc::Global;

fn text(alloc: Global, of: &Text) -> Result<Text, NoMemory>
    ensures { IfOk result (λ t. t ≡ of.now) }
{
    Text::of(alloc, of.as_str())
}

/// A copy of a column.
pub fn copy_column(alloc: Global, def: &ColumnDef) -> Result<ColumnDef, NoMemory>
    ensures { IfOk result (λ c. c ≡ def.now) }
{
    Ok(ColumnDef {
        name: text(alloc, &def.name)?,
        kind: def.kind,
    })
}

/// A copy of these columns.
pub fn copy_columns(alloc: Global, defs: &[ColumnDef]) -> Result<ColumnDefs, NoMemory>
    ensures { IfOk result (λ cs. cs ≡ defs.now) }
{
    let mut copies = Items::new(alloc);
    for def in defs {
        copies.push(copy_column(alloc, def)?)?;
    }
    Ok(copies)
}

/// A copy of these names.
pub fn copy_names(alloc: Global, of: &[Text]) -> Result<Names, NoMemory>
    ensures { IfOk result (λ ns. ns ≡ of.now) }
{
    let mut copies = Items::new(alloc);
    for name in of {
        copies.push(text(alloc, name)?)?;
    }
    Ok(copies)
}

fn given(alloc: Global, of: &Given) -> Result<Given, NoMemory>
    ensures { IfOk result (λ g. g ≡ of.now) }
{
    match of {
        Given::Number(n) => Ok(Given::Number(*n)),
        Given::Text(t) => Ok(Given::Text(text(alloc, t)?)),
        Given::Bound(t) => Ok(Given::Bound(text(alloc, t)?)),
    }
}

fn given_list(alloc: Global, of: &[Given]) -> Result<GivenList, NoMemory>
    ensures { IfOk result (λ gs. gs ≡ of.now) }
{
    let mut copies = Items::new(alloc);
    for value in of {
        copies.push(given(alloc, value)?)?;
    }
    Ok(copies)
}

fn given_rows(alloc: Global, of: &[GivenList]) -> Result<GivenRows, NoMemory>
    ensures { IfOk result (λ rs. rs ≡ of.now) }
{
    let mut copies = Items::new(alloc);
    for row in of {
        copies.push(given_list(alloc, row.as_slice())?)?;
    }
    Ok(copies)
}

fn equality(alloc: Global, of: &Match) -> Result<Match, NoMemory>
    ensures { IfOk result (λ m. m ≡ of.now) }
{
    Ok(Match {
        column: text(alloc, &of.column)?,
        value: given(alloc, &of.value)?,
    })
}

fn filter(alloc: Global, of: &Option<Match>) -> Result<Option<Match>, NoMemory>
    ensures { IfOk result (λ m. m ≡ of.now) }
{
    match of {
        None => Ok(None),
        Some(m) => Ok(Some(equality(alloc, m)?)),
    }
}

/// A copy of an operation.
pub fn copy_op(alloc: Global, of: &Op) -> Result<Op, NoMemory>
    ensures { IfOk result (λ o. o ≡ of.now) }
{
    match of {
        Op::Create { table, columns } => Ok(Op::Create {
            table: text(alloc, table)?,
            columns: copy_columns(alloc, columns.as_slice())?,
        }),
        Op::Insert { table, values } => Ok(Op::Insert {
            table: text(alloc, table)?,
            values: given_list(alloc, values.as_slice())?,
        }),
        Op::Select {
            table,
            names,
            filter: by,
        } => Ok(Op::Select {
            table: text(alloc, table)?,
            names: copy_names(alloc, names.as_slice())?,
            filter: filter(alloc, by)?,
        }),
        Op::Update {
            table,
            change,
            filter: by,
        } => Ok(Op::Update {
            table: text(alloc, table)?,
            change: equality(alloc, change)?,
            filter: filter(alloc, by)?,
        }),
        Op::Delete { table, filter: by } => Ok(Op::Delete {
            table: text(alloc, table)?,
            filter: filter(alloc, by)?,
        }),
        Op::CopyIn { table, rows } => Ok(Op::CopyIn {
            table: text(alloc, table)?,
            rows: given_rows(alloc, rows.as_slice())?,
        }),
        Op::Shape { table } => Ok(Op::Shape {
            table: text(alloc, table)?,
        }),
    }
}

fn datum(alloc: Global, of: &Datum) -> Result<Datum, NoMemory>
    ensures { IfOk result (λ d. d ≡ of.now) }
{
    match of {
        Datum::Number(n) => Ok(Datum::Number(*n)),
        Datum::Text(t) => Ok(Datum::Text(text(alloc, t)?)),
    }
}

fn datum_row(alloc: Global, of: &[Datum]) -> Result<DatumRow, NoMemory>
    ensures { IfOk result (λ r. r ≡ of.now) }
{
    let mut copies = Items::new(alloc);
    for value in of {
        copies.push(datum(alloc, value)?)?;
    }
    Ok(copies)
}

fn datum_rows(alloc: Global, of: &[DatumRow]) -> Result<DatumRows, NoMemory>
    ensures { IfOk result (λ rs. rs ≡ of.now) }
{
    let mut copies = Items::new(alloc);
    for row in of {
        copies.push(datum_row(alloc, row.as_slice())?)?;
    }
    Ok(copies)
}

/// A copy of an answer.
pub fn copy_answer(alloc: Global, of: &Answer) -> Result<Answer, NoMemory>
    ensures { IfOk result (λ a. a ≡ of.now) }
{
    match of {
        Answer::Made => Ok(Answer::Made),
        Answer::Count(n) => Ok(Answer::Count(*n)),
        Answer::Rows { columns, rows } => Ok(Answer::Rows {
            columns: copy_columns(alloc, columns.as_slice())?,
            rows: datum_rows(alloc, rows.as_slice())?,
        }),
        Answer::Shape(columns) => Ok(Answer::Shape(copy_columns(alloc, columns.as_slice())?)),
        Answer::Bad(code) => Ok(Answer::Bad(*code)),
        Answer::Committed => Ok(Answer::Committed),
        Answer::Conflict(place) => Ok(Answer::Conflict(*place)),
    }
}

fn step(alloc: Global, of: &PastStep) -> Result<PastStep, NoMemory>
    ensures { IfOk result (λ s. s ≡ of.now) }
{
    Ok(PastStep {
        op: copy_op(alloc, &of.op)?,
        answer: copy_answer(alloc, &of.answer)?,
    })
}

/// A copy of what a transaction did so far.
pub fn copy_past(alloc: Global, of: &[PastStep]) -> Result<Past, NoMemory>
    ensures { IfOk result (λ p. p ≡ of.now) }
{
    let mut copies = Items::new(alloc);
    for done in of {
        copies.push(step(alloc, done)?)?;
    }
    Ok(copies)
}
