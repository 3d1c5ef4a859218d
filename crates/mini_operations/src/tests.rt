use super::*;
use mini_store::{Given, GivenRows, Match, Op};
use pgw_frames::{NoMemory, Text};
use sql_text::{ColumnDef, Equal, Kind, Value};
use std::alloc::Global;
use std::test::*;

/// `n = $1`.
fn equal(alloc: Global) -> Result<Equal, NoMemory> {
    Ok(Equal {
        column: Text::of(alloc, "n")?,
        value: Value::Param(1),
    })
}

fn column(alloc: Global) -> Result<ColumnDef, NoMemory> {
    Ok(ColumnDef {
        name: Text::of(alloc, "n")?,
        kind: Kind::Int,
    })
}

/// An operation by its number, with this text for `$1`.
fn made(alloc: Global, number: usize, texts: &[Text]) -> Result<Op, NoMemory> {
    match number {
        0 => create(alloc, "t", &[column(alloc)?]),
        1 => insert(alloc, "t", &[Value::Param(1), Value::Number(2)], texts),
        2 => select(alloc, "t", texts, &Some(equal(alloc)?), texts),
        3 => update(alloc, "t", &equal(alloc)?, &None, texts),
        4 => delete(alloc, "t", &Some(equal(alloc)?), texts),
        5 => copy_in(alloc, "t", GivenRows::new(alloc)),
        _ => shape(alloc, "t"),
    }
}

/// Whether a value is the text of a parameter.
fn is_bound(value: &Given, text: &str) -> bool {
    match value {
        Given::Number(_) => false,
        Given::Text(_) => false,
        Given::Bound(t) => t.as_str() == text,
    }
}

fn asks(filter: &Option<Match>, text: &str) -> bool {
    match filter {
        None => false,
        Some(m) => m.column.as_str() == "n" && is_bound(&m.value, text),
    }
}

/// The number of an operation that asks what was meant.
fn number_of(op: &Op) -> Option<usize> {
    match op {
        Op::Create { columns, .. } if columns.len() == 1 => Some(0),
        Op::Insert { values, .. } if values.get(0).is_some_and(|v| is_bound(v, "7")) => Some(1),
        Op::Select { filter, .. } if asks(filter, "7") => Some(2),
        Op::Update { change, .. } if is_bound(&change.value, "7") => Some(3),
        Op::Delete { filter, .. } if asks(filter, "7") => Some(4),
        Op::CopyIn { rows, .. } if rows.is_empty() => Some(5),
        Op::Shape { table } if table.as_str() == "t" => Some(6),
        _ => None,
    }
}

/// What number an operation shows that was made by this one.
fn shows(alloc: Global, number: usize, texts: &[Text]) -> Result<Option<usize>, NoMemory> {
    let op = made(alloc, number, texts)?;
    let shown = number_of(&op);
    drop(op);
    Ok(shown)
}

#[test]
fn operations_of_statements(rt: HostRuntime) -> Result<(), NoMemory> {
    let texts = vec![in rt.alloc(); Text::of(rt.alloc(), "7")?]?;
    for number in 0..7 {
        assert_eq!(rt;
            shows(rt.alloc(), number, texts.as_slice()),
            Ok(Some(number))
        );
    }
    Ok(())
}

#[test]
fn texts_of_values(rt: HostRuntime) -> Result<(), NoMemory> {
    let texts = vec![in rt.alloc(); Text::of(rt.alloc(), "7")?]?;
    let rows = [
        (Value::Number(-5), "-5"),
        (Value::Param(1), "7"),
        (Value::Param(2), ""),
    ];
    for (value, want) in &rows {
        let text = value_text(rt.alloc(), texts.as_slice(), value)?;
        assert_eq!(rt; text.as_str(), *want);
    }
    Ok(())
}
