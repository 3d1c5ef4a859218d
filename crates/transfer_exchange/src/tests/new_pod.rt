//! What the new pod greets with and replies.

use super::*;

#[test]
fn ends_with_the_new_pod(rt: HostRuntime) -> Result<(), Fail> {
    let rows: [(&[Step<'_>], End); 6] = [
        (&[Step::Cut], ("cut", 0)),
        (&[Step::Frame(b'Z', b"I")], ("goes on", 0)),
        (&[Step::Frame(b'Z', b"T")], ("unexpected", 90)),
        (
            &[Step::Frame(b'E', b"SERROR\0C28000\0\0")],
            ("revival refused", 83),
        ),
        (
            &[Step::Frame(b'E', b"SERROR\0C28000\0")],
            ("unexpected", 69),
        ),
        (&[Step::Frame(b'E', b"")], ("unexpected", 69)),
    ];
    for (steps, want) in rows {
        let end = end_of(rt.alloc(), up_to_greeting(rt.alloc())?, steps)?;
        assert_eq!(rt; end, want);
    }
    Ok(())
}

#[test]
fn a_session_is_moved(rt: HostRuntime) -> Result<(), Fail> {
    let steps = [
        Step::Frame(b'K', b"\0\0\0\x07\0\0\0\x09"),
        Step::Frame(b'Z', b"I"),
        Send,
        Columns(NEW),
        Row(&[Some(b"t")]),
        Step::Frame(b'C', b"SELECT 1\0"),
        Step::Frame(b'Z', b"I"),
    ];
    let x = after(rt.alloc(), up_to_greeting(rt.alloc())?, &steps)?;
    let end = came_to(&x);
    let outcome = x.into_outcome();
    let has_moved = matches!(&outcome, Some(Outcome::Moved(_)));
    drop(outcome);
    assert_eq!(rt; end, ("moved", 7));
    assert!(rt; has_moved);
    Ok(())
}

#[test]
fn limits_of_a_greeting(rt: HostRuntime) -> Result<(), Fail> {
    let status = Step::Frame(b'S', b"a\0b\0");
    let mut steps = Vec::new(rt.alloc());
    for _ in 0..1000 {
        steps.push(status)?;
    }
    let end = end_of(rt.alloc(), up_to_greeting(rt.alloc())?, steps.as_slice())?;
    assert_eq!(rt; end, ("goes on", 0));
    steps.push(status)?;
    let end = end_of(rt.alloc(), up_to_greeting(rt.alloc())?, steps.as_slice())?;
    assert_eq!(rt; end, ("unexpected", 83));
    Ok(())
}
