use super::{Side, expect_counts, expect_faults, expect_whole, goes_out};
use crate::{BindMsg, FrontMsg, Items, MsgFault, read_front, write_front};
use pgw_frames::{Bytes, Frame, NoMemory, Text};
use std::alloc::Global;
use std::test::*;

#[test]
fn every_cut_is_short_and_one_byte_more_trailing(rt: HostRuntime) {
    // Messages by the manual's formats: type and body.
    let rows: [(u8, &[u8]); 13] = [
        (b'Q', b"SELECT 1\0"),
        (b'P', b"s\0SELECT $1\0\0\x01\0\0\0\x14"),
        (
            b'B',
            b"\0s\0\0\x01\0\0\0\x02\xff\xff\xff\xff\0\0\0\x01x\0\x01\0\x01",
        ),
        (b'D', b"Ss\0"),
        (b'E', b"\0\0\0\0\x05"),
        (b'S', b""),
        (b'H', b""),
        (b'C', b"P\0"),
        (b'c', b""),
        (b'f', b"no\0"),
        (b'X', b""),
        (b'Q', b"\xc3\xa4\0"),
        (b'P', b"\0\0\0\0"),
    ];
    expect_whole(&rt, rt.alloc(), Side::Client, &rows);
}

#[test]
fn faults_of_client_messages(rt: HostRuntime) {
    let rows: [(u8, &[u8], Option<MsgFault>); 16] = [
        (b'Q', b"1", Some(MsgFault::Short)),
        (b'Q', b"1\x002", Some(MsgFault::Trailing)),
        (b'Q', b"\xff\0", Some(MsgFault::NotText)),
        (b'Q', b"\xff\x002", Some(MsgFault::NotText)),
        (b'D', b"X\0", Some(MsgFault::BadValue)),
        (b'D', b"X", Some(MsgFault::BadValue)),
        (b'C', b"s\0", Some(MsgFault::BadValue)),
        (b'!', b"", Some(MsgFault::UnknownTag(33))),
        (b'R', b"\0\0\0\0", Some(MsgFault::UnknownTag(82))),
        // A count too large, too small, and of all that 16 bits hold.
        (b'P', b"\0\0\0\x02\0\0\0\x14", Some(MsgFault::Short)),
        (b'P', b"\0\0\0\0\0\0\0\x14", Some(MsgFault::Trailing)),
        (b'P', b"\0\0\x01\0\0\0\0\x14", Some(MsgFault::Short)),
        // A length too large, too small, and below that of NULL.
        (
            b'B',
            b"\0\0\0\0\0\x01\0\0\0\x04x\0\0",
            Some(MsgFault::Short),
        ),
        (b'B', b"\0\0\0\0\0\x01\0\0\0\0x\0\0", Some(MsgFault::Short)),
        (
            b'B',
            b"\0\0\0\0\0\x01\xff\xff\xff\xfe\0\0",
            Some(MsgFault::BadValue),
        ),
        (
            b'B',
            b"\0\0\0\0\0\x01\x80\0\0\0\0\0",
            Some(MsgFault::BadValue),
        ),
    ];
    expect_faults(&rt, rt.alloc(), Side::Client, &rows);
}

/// A Bind with one item in each of its lists: formats, values, results.
const BIND: &[u8] = b"p\0s\0\0\x01\0\x01\0\x01\0\0\0\x01x\0\x01\0\x01";

#[test]
fn counts_and_lengths_off_by_one(rt: HostRuntime) {
    // The body, the place of a count's or length's last byte, and the faults with one more and one less.
    let rows: [(u8, &[u8], usize, MsgFault, MsgFault); 5] = [
        // The types of a Parse.
        (
            b'P',
            b"s\0q\0\0\x02\0\0\0\x14\0\0\0\x19",
            5,
            MsgFault::Short,
            MsgFault::Trailing,
        ),
        // The formats. With one more, the value's length is the counts of values and results.
        (b'B', BIND, 5, MsgFault::Trailing, MsgFault::Short),
        // The values. With one more, the formats of the result are its length.
        (b'B', BIND, 9, MsgFault::Short, MsgFault::Trailing),
        // The length of the value. Either way other bytes are the count of the results.
        (b'B', BIND, 13, MsgFault::Short, MsgFault::Short),
        // The formats of the result.
        (b'B', BIND, 16, MsgFault::Short, MsgFault::Trailing),
    ];
    expect_counts(&rt, rt.alloc(), Side::Client, &rows);
}

#[test]
fn texts_of_other_bytes(rt: HostRuntime) {
    // Each text of a message without its zero byte, not in UTF-8, and with a zero byte inside.
    let rows: [(u8, &[u8], Option<MsgFault>); 18] = [
        (b'Q', b"q", Some(MsgFault::Short)),
        (b'Q', b"\xc3\0", Some(MsgFault::NotText)),
        (b'Q', b"a\0b\0", Some(MsgFault::Trailing)),
        (b'P', b"n", Some(MsgFault::Short)),
        (b'P', b"\xff\0q\0\0\0", Some(MsgFault::NotText)),
        (b'P', b"n\0q", Some(MsgFault::Short)),
        (b'P', b"n\0\xff\0\0\0", Some(MsgFault::NotText)),
        (b'P', b"n\0m\0q\0\0\0", Some(MsgFault::Short)),
        (b'B', b"\xff\0s\0\0\0\0\0\0\0", Some(MsgFault::NotText)),
        (b'B', b"p\0\xff\0\0\0\0\0\0\0", Some(MsgFault::NotText)),
        (b'B', b"p\0s\0t\0\0\0\0\0\0\0", Some(MsgFault::Short)),
        (b'D', b"S\xff\0", Some(MsgFault::NotText)),
        (b'D', b"Sa\0b\0", Some(MsgFault::Trailing)),
        (b'C', b"P\xff\0", Some(MsgFault::NotText)),
        (b'E', b"\xff\0\0\0\0\0", Some(MsgFault::NotText)),
        (b'E', b"a\0b\0\0\0\0\0", Some(MsgFault::Trailing)),
        (b'f', b"\xff\0", Some(MsgFault::NotText)),
        (b'f', b"a\0b\0", Some(MsgFault::Trailing)),
    ];
    expect_faults(&rt, rt.alloc(), Side::Client, &rows);
}

#[test]
fn all_bytes_are_kept_unread(rt: HostRuntime) {
    let rows: [(u8, &[u8], Option<MsgFault>); 6] = [
        (b'F', b"", None),
        (b'F', b"\xff\0\0x", None),
        (b'd', b"", None),
        (b'd', b"\xff\0\0x", None),
        (b'p', b"", None),
        (b'p', b"\xff\0\0x", None),
    ];
    expect_faults(&rt, rt.alloc(), Side::Client, &rows);
}

/// A message of a client.
fn read(alloc: Global, tag: u8, body: &[u8]) -> Result<FrontMsg, MsgFault> {
    let body = Bytes::of(alloc, body)?;
    read_front(alloc, &Frame { tag, body })
}

/// A Query's text.
fn text_of(message: &FrontMsg) -> Option<&str> {
    match message {
        FrontMsg::Query(text) => Some(text.as_str()),
        _ => None,
    }
}

#[test]
fn a_query_has_its_text(rt: HostRuntime) -> Result<(), MsgFault> {
    let message = read(rt.alloc(), b'Q', b"1\0")?;
    assert_eq!(rt; text_of(&message), Some("1"));
    drop(message);
    Ok(())
}

/// Whether a Bind has two values, NULL and one of no bytes.
fn has_null_and_empty(message: &FrontMsg) -> bool {
    match message {
        FrontMsg::Bind(bind) => match bind.values.as_slice() {
            [None, Some(value)] => value.is_empty(),
            _ => false,
        },
        _ => false,
    }
}

#[test]
fn null_is_no_empty_value(rt: HostRuntime) -> Result<(), MsgFault> {
    let body = b"\0\0\0\0\0\x02\xff\xff\xff\xff\0\0\0\0\0\0";
    let message = read(rt.alloc(), b'B', body)?;
    assert!(rt; has_null_and_empty(&message));
    drop(message);
    Ok(())
}

/// A Query.
fn query_frame(alloc: Global) -> Result<Frame, NoMemory> {
    FrontMsg::Query(Text::of(alloc, "1")?).into_frame(alloc)
}

/// A Bind with a format, NULL and a value.
fn bind_frame(alloc: Global) -> Result<Frame, NoMemory> {
    let portal = Text::of(alloc, "p")?;
    let statement = Text::of(alloc, "")?;
    let value = Bytes::of(alloc, b"xy")?;
    let mut formats = Items::new(alloc);
    formats.push(1)?;
    let mut values = Items::new(alloc);
    values.push(None)?;
    values.push(Some(value))?;
    let bind = FrontMsg::Bind(BindMsg {
        portal,
        statement,
        formats,
        values,
        results: Items::new(alloc),
    });
    bind.into_frame(alloc)
}

#[test]
fn messages_on_the_wire(rt: HostRuntime) {
    let query = query_frame(rt.alloc());
    assert_eq!(rt; goes_out(rt.alloc(), query, b"Q\0\0\0\x061\0"), Ok(true));
    let bind = bind_frame(rt.alloc());
    let want = b"B\0\0\0\x19p\0\0\0\x01\0\x01\0\x02\xff\xff\xff\xff\0\0\0\x02xy\0\0";
    assert_eq!(rt; goes_out(rt.alloc(), bind, want), Ok(true));
}
