use super::*;
use mini_store::{Datum, SqlCode};
use pgw_frames::{Bytes, Frame, MOST_BODY, NoMemory, Text, write_frame};
use session_model::{complete, ready};
use sql_text::{ColumnDef, Kind};
use std::alloc::Global;
use std::test::*;

/// Whether the frame goes out so.
fn is(alloc: Global, f: &Frame, want: &[u8]) -> Result<bool, NoMemory> {
    let mut out = Bytes::new(alloc);
    if f.body.len() <= MOST_BODY {
        write_frame(f, &mut out)?;
    }
    Ok(out.as_slice() == want)
}

fn def(alloc: Global, name: &str, kind: Kind) -> Result<ColumnDef, NoMemory> {
    let name = Text::of(alloc, name)?;
    Ok(ColumnDef { name, kind })
}

/// Whether two columns, an INT and a TEXT, are told so.
fn tells_columns(alloc: Global, want: &[u8]) -> Result<bool, NoMemory> {
    let defs = vec![in alloc; def(alloc, "n", Kind::Int)?, def(alloc, "t", Kind::Text)?]?;
    is(alloc, &row_columns(alloc, defs.as_slice())?, want)
}

/// Whether a row of a number and a text is told so.
fn tells_row(alloc: Global, want: &[u8]) -> Result<bool, NoMemory> {
    let data = vec![in alloc; Datum::Number(-12), Datum::Text(Text::of(alloc, "ab")?)]?;
    is(alloc, &data_row(alloc, data.as_slice())?, want)
}

#[test]
fn columns_and_rows(rt: HostRuntime) {
    let columns =
        b"T\0\0\0\x2e\0\x02n\0\0\0\0\0\0\0\0\0\0\x14\0\x08\xff\xff\xff\xff\0\0t\0\0\0\0\0\0\0\0\0\0\x19\xff\xff\xff\xff\xff\xff\0\0";
    assert_eq!(rt; tells_columns(rt.alloc(), columns), Ok(true));
    let row = b"D\0\0\0\x13\0\x02\0\0\0\x03-12\0\0\0\x02ab";
    assert_eq!(rt; tells_row(rt.alloc(), row), Ok(true));
}

/// A message by its number in the table below.
fn made(alloc: Global, number: usize) -> Result<Frame, NoMemory> {
    match number {
        0 => error(alloc, SqlCode::UndefinedTable),
        1 => ready(alloc, b'E'),
        2 => parse_complete(alloc),
        3 => bind_complete(alloc),
        4 => close_complete(alloc),
        5 => no_rows(alloc),
        6 => empty_query(alloc),
        7 => one_value(alloc, "v"),
        8 => complete(alloc, "BEGIN"),
        9 => counted(alloc, "SELECT ", 10),
        10 => copy_in(alloc, 2),
        _ => param_types(alloc, &[25, 20]),
    }
}

#[test]
fn other_messages(rt: HostRuntime) {
    let rows: [&[u8]; 12] = [
        b"E\0\0\0\x29SERROR\0VERROR\0C42P01\0Mno such table\0\0",
        b"Z\0\0\0\x05E",
        b"1\0\0\0\x04",
        b"2\0\0\0\x04",
        b"3\0\0\0\x04",
        b"n\0\0\0\x04",
        b"I\0\0\0\x04",
        b"D\0\0\0\x0b\0\x01\0\0\0\x01v",
        b"C\0\0\0\x0aBEGIN\0",
        b"C\0\0\0\x0eSELECT 10\0",
        b"G\0\0\0\x0b\0\0\x02\0\0\0\0",
        b"t\0\0\0\x0e\0\x02\0\0\0\x19\0\0\0\x14",
    ];
    for (number, want) in rows.iter().enumerate() {
        let is = made(rt.alloc(), number).and_then(|f| is(rt.alloc(), &f, want));
        assert_eq!(rt; is, Ok(true), "at {number}");
    }
}

#[test]
fn greeting_of_a_session(rt: HostRuntime) -> Result<(), NoMemory> {
    let alloc = rt.alloc();
    let frames = greets(alloc)?;
    let mut out = Bytes::new(alloc);
    for f in frames.as_slice() {
        if f.body.len() <= MOST_BODY {
            write_frame(f, &mut out)?;
        }
    }
    let want =
        b"R\0\0\0\x08\0\0\0\0S\0\0\0\x18server_version\x0013.0\0S\0\0\0\x19client_encoding\0UTF8\0S\0\0\0\x23standard_conforming_strings\0on\0S\0\0\0\x19integer_datetimes\0on\0S\0\0\0\x17DateStyle\0ISO, MDY\0K\0\0\0\x0c\0\0\0\0\0\0\0\0Z\0\0\0\x05I";
    assert_eq!(rt; out.as_slice(), want.as_slice());
    Ok(())
}
