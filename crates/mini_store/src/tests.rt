//! What no clause says: that a store answers with ample memory, and its limits by numbers.

mod limits;

use super::*;
use pgw_frames::{NoMemory, Text};
use pgw_messages::Items;
use proxy_outside::Machine;
use sql_text::{ColumnDef, ColumnDefs, Kind};
use std::alloc::Global;
use std::process::Abort;
use std::test::*;

/// An operation on a table `t` of a number and a text, or on one that isn't there.
#[derive(Clone, Copy)]
enum Ask {
    /// Makes a table of this name with so many columns.
    Make(&'static str, usize),
    /// Adds a row: a key as a parameter's text, and a text of so many bytes.
    Add(&'static str, usize),
    /// Adds rows with the keys from 0 up to this one.
    Fill(i64),
    /// The rows with this key.
    Find(i64),
    /// All rows of a table.
    Read(&'static str),
    /// Makes the text of each row one of so many bytes.
    Write(usize),
    /// Gives the row with the first key the second.
    Move(i64, i64),
    /// Deletes the row with this key.
    Remove(i64),
}

fn text_of(alloc: Global, len: usize) -> Result<Text, Fail> {
    let mut value = String::new(alloc);
    for _ in 0..len {
        value.push_str("x")?;
    }
    Ok(Text::from_string(value))
}

/// So many columns: a number `k`, a text `v`, and then numbers c2, c3 and so on.
fn columns(alloc: Global, count: usize) -> Result<ColumnDefs, NoMemory> {
    let mut columns = Items::new(alloc);
    for i in 0..count {
        let name = match i {
            0 => Text::of(alloc, "k")?,
            1 => Text::of(alloc, "v")?,
            _ => Text::from_string(format!(in alloc; "c{i}")?),
        };
        let kind = match i {
            1 => Kind::Text,
            _ => Kind::Int,
        };
        columns.push(ColumnDef { name, kind })?;
    }
    Ok(columns)
}

fn row(alloc: Global, key: Given, text: Text) -> Result<GivenList, Fail> {
    let mut row = Items::new(alloc);
    row.push(key)?;
    row.push(Given::Text(text))?;
    Ok(row)
}

fn rows(alloc: Global, count: i64) -> Result<GivenRows, Fail> {
    let mut rows = Items::new(alloc);
    for key in 0..count {
        rows.push(row(alloc, Given::Number(key), Text::of(alloc, "")?)?)?;
    }
    Ok(rows)
}

fn equal(alloc: Global, column: &str, value: Given) -> Result<Match, Fail> {
    Ok(Match {
        column: Text::of(alloc, column)?,
        value,
    })
}

fn op(alloc: Global, ask: Ask) -> Result<Op, Fail> {
    let t = Text::of(alloc, "t")?;
    match ask {
        Ask::Make(name, count) => Ok(Op::Create {
            table: Text::of(alloc, name)?,
            columns: columns(alloc, count)?,
        }),
        Ask::Add(key, len) => {
            let key = Given::Bound(Text::of(alloc, key)?);
            let values = row(alloc, key, text_of(alloc, len)?)?;
            Ok(Op::Insert { table: t, values })
        }
        Ask::Fill(count) => Ok(Op::CopyIn {
            table: t,
            rows: rows(alloc, count)?,
        }),
        Ask::Find(key) => Ok(Op::Select {
            table: t,
            names: Items::new(alloc),
            filter: Some(equal(alloc, "k", Given::Number(key))?),
        }),
        Ask::Read(name) => Ok(Op::Select {
            table: Text::of(alloc, name)?,
            names: Items::new(alloc),
            filter: None,
        }),
        Ask::Write(len) => Ok(Op::Update {
            table: t,
            change: equal(alloc, "v", Given::Text(text_of(alloc, len)?))?,
            filter: None,
        }),
        Ask::Move(from, to) => Ok(Op::Update {
            table: t,
            change: equal(alloc, "k", Given::Number(to))?,
            filter: Some(equal(alloc, "k", Given::Number(from))?),
        }),
        Ask::Remove(key) => Ok(Op::Delete {
            table: t,
            filter: Some(equal(alloc, "k", Given::Number(key))?),
        }),
    }
}

fn push_datum(out: &mut String, datum: &Datum) -> Result<(), Fail> {
    match datum {
        Datum::Number(n) => out.push_str(format!(in *out.allocator(); "{n}")?.as_str())?,
        Datum::Text(t) => out.push_str(t.as_str())?,
    }
    Ok(())
}

fn push_rows(out: &mut String, rows: &[DatumRow]) -> Result<(), Fail> {
    for row in rows {
        for datum in row.as_slice() {
            push_datum(out, datum)?;
            out.push_str(",")?;
        }
        out.push_str(";")?;
    }
    Ok(())
}

/// An answer as text: rows are ended by `;`, their values by `,`.
fn told(alloc: Global, answer: &Answer) -> Result<String, Fail> {
    let mut out = String::new(alloc);
    match answer {
        Answer::Made => out.push_str("made")?,
        Answer::Count(n) => out.push_str(format!(in alloc; "{n}")?.as_str())?,
        Answer::Rows { rows, .. } => push_rows(&mut out, rows.as_slice())?,
        Answer::Shape(_) => out.push_str("shape")?,
        Answer::Bad(code) => out.push_str(code.digits())?,
        Answer::Committed => out.push_str("committed")?,
        Answer::Conflict(place) => {
            out.push_str(format!(in alloc; "conflict {place}")?.as_str())?;
        }
    }
    Ok(out)
}

fn step(alloc: Global, store: &mut Store, command: StoreCommand) -> Result<String, Fail> {
    let answer = store.step(&command);
    drop(command);
    let answer = answer?;
    let text = told(alloc, &answer);
    drop(answer);
    text
}

/// What a store answers to these one after another, each answer ended by a blank.
fn answers(alloc: Global, store: &mut Store, asks: &[Ask]) -> Result<String, Fail> {
    let mut out = String::new(alloc);
    for ask in asks {
        let text = step(alloc, store, StoreCommand::Single(op(alloc, *ask)?))?;
        out.push_str(text.as_str())?;
        out.push_str(" ")?;
    }
    Ok(out)
}

fn all_answers(alloc: Global, asks: &[Ask]) -> Result<String, Fail> {
    let mut store = Store::opening(alloc)?;
    let text = answers(alloc, &mut store, asks);
    drop(store);
    text
}

#[test]
fn operations_one_after_another(rt: HostRuntime) -> Result<(), Fail> {
    let asks = [
        Ask::Make("t", 2),
        Ask::Make("t", 2),
        Ask::Add("1", 2),
        Ask::Add("1", 2),
        Ask::Add("-1", 0),
        Ask::Read("u"),
        Ask::Read("t"),
        Ask::Move(-1, 1),
        Ask::Move(-1, 3),
        Ask::Write(1),
        Ask::Read("t"),
        Ask::Remove(1),
        Ask::Find(1),
        Ask::Find(3),
    ];
    let text = all_answers(rt.alloc(), &asks)?;
    let wanted = "made 42P07 1 23505 1 42P01 -1,,;1,xx,; 23505 1 2 1,x,;3,x,; 1  3,x,; ";
    assert_eq!(rt; text.as_str(), wanted);
    Ok(())
}

#[test]
fn texts_and_numbers_at_their_ends(rt: HostRuntime) -> Result<(), Fail> {
    let asks = [
        Ask::Make("t", 2),
        Ask::Add("9223372036854775807", 256),
        Ask::Add("-9223372036854775808", 0),
        Ask::Add("9223372036854775808", 0),
        Ask::Add("", 0),
        Ask::Add("+5", 0),
        Ask::Add("5", 257),
        Ask::Add("x", 257),
        Ask::Add("5", 0),
        Ask::Add("0005", 0),
    ];
    let text = all_answers(rt.alloc(), &asks)?;
    let wanted = "made 1 1 22P02 22P02 22P02 54000 54000 1 23505 ";
    assert_eq!(rt; text.as_str(), wanted);
    Ok(())
}

fn past(alloc: Global, op: Op, answer: Answer) -> Result<Past, Fail> {
    let mut past = Items::new(alloc);
    match past.push(PastStep { op, answer }) {
        Ok(()) => Ok(past),
        Err(e) => {
            drop(past);
            Err(e.into())
        }
    }
}

/// What a store answers to a commit of one operation with this answer.
fn commit(alloc: Global, store: &mut Store, ask: Ask, answer: Answer) -> Result<String, Fail> {
    let past = past(alloc, op(alloc, ask)?, answer)?;
    step(alloc, store, StoreCommand::Commit { past })
}

fn transaction_answers(alloc: Global, store: &mut Store) -> Result<String, Fail> {
    let read = [Ask::Read("t")];
    let mut out = answers(alloc, store, &[Ask::Make("t", 2), Ask::Add("1", 1)])?;
    let attempt = StoreCommand::Try {
        past: Items::new(alloc),
        op: op(alloc, Ask::Write(2))?,
    };
    out.push_str(step(alloc, store, attempt)?.as_str())?;
    out.push_str(answers(alloc, store, &read)?.as_str())?;
    let nothing = Answer::Rows {
        columns: Items::new(alloc),
        rows: Items::new(alloc),
    };
    out.push_str(commit(alloc, store, Ask::Read("t"), nothing)?.as_str())?;
    out.push_str(answers(alloc, store, &read)?.as_str())?;
    out.push_str(commit(alloc, store, Ask::Write(2), Answer::Count(1))?.as_str())?;
    out.push_str(answers(alloc, store, &read)?.as_str())?;
    Ok(out)
}

#[test]
fn transactions(rt: HostRuntime) -> Result<(), Fail> {
    let mut store = Store::opening(rt.alloc())?;
    let text = transaction_answers(rt.alloc(), &mut store);
    drop(store);
    let wanted = "made 1 11,x,; conflict 01,x,; committed1,xx,; ";
    assert_eq!(rt; text?.as_str(), wanted);
    Ok(())
}
