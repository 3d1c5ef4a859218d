//! What the old pod replies.

use super::*;

#[test]
fn rows_of_an_old_pod(rt: HostRuntime) -> Result<(), Fail> {
    let rows: [(&[Option<&[u8]>], End); 9] = [
        (
            &[None, Some(b"AQ=="), Some(b"dG9r"), Some(KEY)],
            ("goes on", 0),
        ),
        (&[Some(b"busy"), Some(b""), None, Some(KEY)], ("goes on", 0)),
        (&[None, None, Some(b"dG9r"), Some(KEY)], ("unexpected", 68)),
        (
            &[None, Some(b"AQ="), Some(b"dG9r"), Some(KEY)],
            ("unexpected", 68),
        ),
        (
            &[None, Some(b"AQ=="), Some(b"dG9"), Some(KEY)],
            ("unexpected", 68),
        ),
        (
            &[None, Some(b"AQ=="), Some(b"dG9r"), None],
            ("unexpected", 68),
        ),
        (
            &[None, Some(b"AQ=="), Some(b"dG9r"), Some(b"1")],
            ("unexpected", 68),
        ),
        (&[Some(b"\xff"), None, None, Some(KEY)], ("unexpected", 68)),
        (&[None, Some(b"AQ=="), Some(b"dG9r")], ("unexpected", 68)),
    ];
    for (values, want) in rows {
        let steps = [Send, Columns(OLD), Row(values)];
        assert_eq!(rt; end_of(rt.alloc(), begun(rt.alloc())?, &steps)?, want);
    }
    Ok(())
}

#[test]
fn ends_with_the_old_pod(rt: HostRuntime) -> Result<(), Fail> {
    let refused = Row(&[Some(b"busy"), Some(b""), Some(b""), Some(KEY)]);
    let tag = Step::Frame(b'C', b"SHOW TRANSFER STATE 1\0");
    let rows: [(&[Step<'_>], End); 3] = [
        (&[Step::Cut], ("cut", 0)),
        (&[Send, Columns(OLD), refused, tag], ("goes on", 0)),
        (
            &[Send, Columns(OLD), refused, tag, Step::Frame(b'Z', b"T")],
            ("refused", 4),
        ),
    ];
    for (steps, want) in rows {
        assert_eq!(rt; end_of(rt.alloc(), begun(rt.alloc())?, steps)?, want);
    }
    let end = end_of(rt.alloc(), up_to_dial(rt.alloc())?, &[Dial(false)])?;
    assert_eq!(rt; end, ("dial fault", 0));
    Ok(())
}
