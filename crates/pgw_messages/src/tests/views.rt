use crate::{ColumnsView, FieldsView, RowView};
use std::test::*;

fn second_value(body: &[u8]) -> Option<Option<&[u8]>> {
    let (_, row) = RowView::of(body)?.split_first()?;
    let (value, _) = row.split_first()?;
    Some(value)
}

fn first_name(body: &[u8]) -> Option<&str> {
    let (column, _) = ColumnsView::of(body)?.split_first()?;
    Some(column.name)
}

fn first_field(body: &[u8]) -> Option<(u8, &str)> {
    let (code, value, _) = FieldsView::of(body)?.split_first()?;
    Some((code, value))
}

#[test]
fn bodies_are_seen(rt: HostRuntime) {
    let row = b"\0\x02\xff\xff\xff\xff\0\0\0\x02ab";
    assert!(rt; second_value(row) == Some(Some(b"ab".as_slice())));
    let column = b"\0\x01id\0\0\0\0\0\0\0\0\0\0\x17\0\x04\xff\xff\xff\xff\0\0";
    assert!(rt; first_name(column) == Some("id"));
    assert!(rt; first_field(b"SERROR\0C42601\0\0") == Some((b'S', "ERROR")));
}

#[test]
fn bodies_that_are_refused(rt: HostRuntime) {
    let rows: [&[u8]; 5] = [
        b"",
        b"\0\x01",
        b"\0\x01\xff\xff\xff\xfe",
        b"\0\x01\0\0\0\x02a",
        b"\0\0\0",
    ];
    for body in rows {
        assert!(rt; RowView::of(body).is_none(), "{body:?}");
    }
    let fields: [&[u8]; 4] = [b"", b"SERROR\0", b"S\xff\0\0", b"\0\0"];
    for body in fields {
        assert!(rt; FieldsView::of(body).is_none(), "{body:?}");
    }
}
