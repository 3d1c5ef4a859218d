use super::{Side, expect_counts, expect_faults, expect_whole, goes_out};
use crate::{
    BackMsg, Column, ColumnView, Field, Items, MsgFault, columns_frame, read_back, write_back,
};
use pgw_frames::{Bytes, Frame, NoMemory, Text};
use std::alloc::Global;
use std::test::*;

#[test]
fn every_cut_is_short_and_one_byte_more_trailing(rt: HostRuntime) {
    // Messages by the manual's formats: type and body.
    let rows: [(u8, &[u8]); 19] = [
        (b'S', b"server_version\x0013.0\0"),
        (b'K', b"\0\0\0\x01\x01\x02\x03\x04"),
        (b'Z', b"I"),
        (b'Z', b"T"),
        (b'Z', b"E"),
        (
            b'T',
            b"\0\x01n\0\0\0\0\0\0\0\0\0\0\x19\xff\xff\xff\xff\xff\xff\0\0",
        ),
        (b'D', b"\0\x02\xff\xff\xff\xff\0\0\0\x01t"),
        (b'C', b"SELECT 1\0"),
        (b'I', b""),
        (b'E', b"SERROR\0VERROR\0C42601\0Msyntax error\0\0"),
        (b'N', b"\0"),
        (b'A', b"\0\0\0\x07c\0\0"),
        (b'1', b""),
        (b'2', b""),
        (b'3', b""),
        (b't', b"\0\x02\0\0\0\x14\0\0\0\x19"),
        (b'n', b""),
        (b's', b""),
        (b'G', b"\0\0\x02\0\0\0\0"),
    ];
    expect_whole(&rt, rt.alloc(), Side::Server, &rows);
}

#[test]
fn faults_of_server_messages(rt: HostRuntime) {
    let rows: [(u8, &[u8], Option<MsgFault>); 11] = [
        (b'Z', b"X", Some(MsgFault::BadValue)),
        (b'Z', b"i", Some(MsgFault::BadValue)),
        (b'Z', b"XI", Some(MsgFault::BadValue)),
        (b'v', b"", Some(MsgFault::UnknownTag(118))),
        (b'R', b"\0\0\0", Some(MsgFault::Short)),
        // A count too large and too small.
        (
            b'D',
            b"\0\x03\xff\xff\xff\xff\0\0\0\x01t",
            Some(MsgFault::Short),
        ),
        (
            b'D',
            b"\0\x01\xff\xff\xff\xff\0\0\0\x01t",
            Some(MsgFault::Trailing),
        ),
        // A length too large, too small, and below that of NULL.
        (b'D', b"\0\x01\0\0\0\x02t", Some(MsgFault::Short)),
        (b'D', b"\0\x01\0\0\0\0t", Some(MsgFault::Trailing)),
        (b'D', b"\0\x01\xff\xff\xff\xfet", Some(MsgFault::BadValue)),
        (b'E', b"S\xff\0\0", Some(MsgFault::NotText)),
    ];
    expect_faults(&rt, rt.alloc(), Side::Server, &rows);
}

#[test]
fn counts_and_lengths_off_by_one(rt: HostRuntime) {
    // The body, and the place of a count's or length's last byte: of columns, values, the bytes of a
    // value, types and formats.
    let rows: [(u8, &[u8], usize, MsgFault, MsgFault); 5] = [
        (
            b'T',
            b"\0\x01n\0\0\0\0\0\0\0\0\0\0\x19\xff\xff\xff\xff\xff\xff\0\0",
            1,
            MsgFault::Short,
            MsgFault::Trailing,
        ),
        (
            b'D',
            b"\0\x01\0\0\0\x01t",
            1,
            MsgFault::Short,
            MsgFault::Trailing,
        ),
        (
            b'D',
            b"\0\x01\0\0\0\x01t",
            5,
            MsgFault::Short,
            MsgFault::Trailing,
        ),
        (
            b't',
            b"\0\x02\0\0\0\x14\0\0\0\x19",
            1,
            MsgFault::Short,
            MsgFault::Trailing,
        ),
        (
            b'G',
            b"\0\0\x02\0\0\0\0",
            2,
            MsgFault::Short,
            MsgFault::Trailing,
        ),
    ];
    expect_counts(&rt, rt.alloc(), Side::Server, &rows);
}

#[test]
fn texts_of_other_bytes(rt: HostRuntime) {
    // Each text of a message without its zero byte, not in UTF-8, and with a zero byte inside.
    let rows: [(u8, &[u8], Option<MsgFault>); 16] = [
        (b'S', b"a\0b", Some(MsgFault::Short)),
        (b'S', b"\xff\0b\0", Some(MsgFault::NotText)),
        (b'S', b"a\0\xff\0", Some(MsgFault::NotText)),
        (b'S', b"a\0b\0c\0", Some(MsgFault::Trailing)),
        (b'T', b"\0\x01n", Some(MsgFault::Short)),
        (b'T', b"\0\x01\xff\0", Some(MsgFault::NotText)),
        (b'C', b"S", Some(MsgFault::Short)),
        (b'C', b"\xff\0", Some(MsgFault::NotText)),
        (b'C', b"a\0b\0", Some(MsgFault::Trailing)),
        (b'E', b"Sa\0", Some(MsgFault::Short)),
        (b'E', b"Sa\0\0M\0", Some(MsgFault::Trailing)),
        (b'N', b"S\xff\0\0", Some(MsgFault::NotText)),
        (b'A', b"\0\0\0\x07\xff\0p\0", Some(MsgFault::NotText)),
        (b'A', b"\0\0\0\x07c\0\xff\0", Some(MsgFault::NotText)),
        (b'A', b"\0\0\0\x07c\0p", Some(MsgFault::Short)),
        (b'A', b"\0\0\0\x07c\0p\0q\0", Some(MsgFault::Trailing)),
    ];
    expect_faults(&rt, rt.alloc(), Side::Server, &rows);
}

#[test]
fn an_authentication_cut_in_its_code(rt: HostRuntime) {
    let rows: [(u8, &[u8], Option<MsgFault>); 6] = [
        (b'R', b"", Some(MsgFault::Short)),
        (b'R', b"\0", Some(MsgFault::Short)),
        (b'R', b"\0\0", Some(MsgFault::Short)),
        (b'R', b"\0\0\0", Some(MsgFault::Short)),
        (b'R', b"\0\0\0\x05", None),
        (b'R', b"\0\0\0\x05salt", None),
    ];
    expect_faults(&rt, rt.alloc(), Side::Server, &rows);
}

/// A message of a server.
fn read(alloc: Global, tag: u8, body: &[u8]) -> Result<BackMsg, MsgFault> {
    let body = Bytes::of(alloc, body)?;
    read_back(alloc, &Frame { tag, body })
}

/// An authentication's code, and what it brings.
fn auth_of(message: &BackMsg) -> Option<(u32, &[u8])> {
    match message {
        BackMsg::Auth(auth) => Some((auth.code, auth.rest.as_slice())),
        _ => None,
    }
}

#[test]
fn authentication_keeps_what_it_brings(rt: HostRuntime) -> Result<(), MsgFault> {
    let message = read(rt.alloc(), b'R', b"\0\0\0\x05salt")?;
    assert_eq!(rt; auth_of(&message), Some((5, b"salt".as_slice())));
    drop(message);
    Ok(())
}

/// The first column.
fn column_of(message: &BackMsg) -> Option<&Column> {
    match message {
        BackMsg::Columns(columns) => columns.get(0),
        _ => None,
    }
}

#[test]
fn a_text_column_has_no_size(rt: HostRuntime) -> Result<(), MsgFault> {
    let body = b"\0\x01n\0\0\0\0\0\0\0\0\0\0\x19\xff\xff\xff\xff\xff\xff\0\0";
    let message = read(rt.alloc(), b'T', body)?;
    let column = column_of(&message).map(|c| (c.kind, c.size, c.modifier));
    assert_eq!(rt; column, Some((25, -1, -1)));
    drop(message);
    Ok(())
}

#[test]
fn columns_on_the_wire(rt: HostRuntime) {
    let column = ColumnView {
        name: "n",
        table: 1,
        column: 2,
        kind: 25,
        size: -1,
        modifier: -1,
        format: 0,
    };
    let frame = columns_frame(rt.alloc(), &[column]);
    let want = b"T\0\0\0\x1a\0\x01n\0\0\0\0\x01\0\x02\0\0\0\x19\xff\xff\xff\xff\xff\xff\0\0";
    assert_eq!(rt; goes_out(rt.alloc(), frame, want), Ok(true));
}

/// Whether an error has this field at this place.
fn has_field(message: &BackMsg, place: usize, code: u8, value: &str) -> bool {
    match message {
        BackMsg::Fault(fields) => match fields.get(place) {
            Some(field) => field.code == code && field.value.as_str() == value,
            None => false,
        },
        _ => false,
    }
}

#[test]
fn an_error_has_its_fields(rt: HostRuntime) -> Result<(), MsgFault> {
    let message = read(rt.alloc(), b'E', b"SFATAL\0VFATAL\0C28000\0Mno\0\0")?;
    let fields = [
        (b'S', "FATAL"),
        (b'V', "FATAL"),
        (b'C', "28000"),
        (b'M', "no"),
    ];
    for (place, (code, value)) in fields.iter().enumerate() {
        assert!(rt; has_field(&message, place, *code, value), "at {place}");
    }
    drop(message);
    Ok(())
}

#[test]
fn ready_on_the_wire(rt: HostRuntime) {
    let message = BackMsg::Ready(b'I');
    let frame = write_back(rt.alloc(), &message);
    drop(message);
    assert_eq!(rt; goes_out(rt.alloc(), frame, b"Z\0\0\0\x05I"), Ok(true));
}

/// An error of one field.
fn error_frame(alloc: Global) -> Result<Frame, NoMemory> {
    let value = Text::of(alloc, "28000")?;
    let mut fields = Items::new(alloc);
    fields.push(Field { code: b'C', value })?;
    BackMsg::Fault(fields).into_frame(alloc)
}

#[test]
fn an_error_on_the_wire(rt: HostRuntime) {
    let frame = error_frame(rt.alloc());
    assert_eq!(rt;
        goes_out(rt.alloc(), frame, b"E\0\0\0\x0cC28000\0\0"),
        Ok(true)
    );
}
