use super::*;

#[test]
fn what_is_no_schedule(rt: HostRuntime) -> Result<(), Fail> {
    let rows = [
        (
            "run",
            "give 51000000063100\npss\nforwrd\n",
            Status::BadLine(2),
        ),
        ("run", "\n", Status::BadLine(1)),
        ("run", "pass\n\npass\n", Status::BadLine(2)),
        ("run", "pass\nrea", Status::BadLine(2)),
        ("run", "pass\npass\nread 65536", Status::BadLine(3)),
        ("run", "read 07\n", Status::BadLine(1)),
        ("run", "pass\r\n", Status::BadLine(1)),
        ("run", "give 5A\n", Status::BadLine(1)),
        ("run", "give 510\n", Status::BadLine(1)),
        ("run", "stopp\n", Status::BadLine(1)),
        ("run", "start 00\n", Status::BadLine(1)),
        ("run", "other \n", Status::BadLine(1)),
        ("walk", "pass\n", Status::Usage),
        ("gen", "pass\n", Status::Usage),
        ("gen 1", "pass\n", Status::Usage),
        ("gen 1 0", "pass\n", Status::Usage),
        ("gen 1 100001", "pass\n", Status::Usage),
        ("gen 01 1", "pass\n", Status::Usage),
        ("gen +1 1", "pass\n", Status::Usage),
        ("gen 18446744073709551616 1", "pass\n", Status::Usage),
        ("gen 1 1 1", "pass\n", Status::Usage),
        ("run mini", "pass\n", Status::Usage),
        ("run tally tally", "pass\n", Status::Usage),
        ("tally run", "pass\n", Status::Usage),
        ("", "pass\n", Status::Usage),
        ("--help", "pass\n", Status::Usage),
    ];
    for (word, schedule, want) in rows {
        let (status, report) = replayed_whole(rt.alloc(), word, schedule)?;
        assert_eq!(rt; status, want, "at {schedule}");
        assert!(rt; report.is_empty(), "at {schedule}");
    }
    Ok(())
}

/// What a replay answers to a sink, over one line.
fn cut_short(alloc: Global, sink: &mut MemSink) -> Result<Status, NoMemory> {
    let words = words_of(alloc, "run")?;
    let mut source = MemSource::make(alloc, b"pass\n", 5, &[], &[])?;
    let status = replay(alloc, words.as_slice(), &mut source, sink);
    drop(source);
    Ok(status)
}

#[test]
fn a_read_that_fails(rt: HostRuntime) -> Result<(), Fail> {
    let source = MemSource::make(rt.alloc(), b"pass\npass\npass\n", 5, &[], &[3])?;
    let (status, report) = replayed(rt.alloc(), "run", source)?;
    assert_eq!(rt; status, Status::ReadFault);
    assert!(rt; report.is_empty());
    Ok(())
}

#[test]
fn a_write_that_fails(rt: HostRuntime) -> Result<(), Fail> {
    let mut sink = MemSink::make(rt.alloc(), 18, &[2])?;
    let status = cut_short(rt.alloc(), &mut sink);
    let is_front = sink.contents() == b"sqlproxy replay 1\n".as_slice();
    drop(sink);
    assert_eq!(rt; status, Ok(Status::WriteFault));
    assert!(rt; is_front);
    Ok(())
}

/// The statuses that README names.
#[test]
fn exit_statuses(rt: HostRuntime) -> Result<(), Fail> {
    let rows = [
        (Status::Done, 0),
        (Status::Usage, 2),
        (Status::BadLine(1), 3),
        (Status::ReadFault, 4),
        (Status::WriteFault, 5),
        (Status::NoMemory, 6),
        (Status::TooLong, 7),
        (Status::Late(1000), 8),
    ];
    for (status, want) in rows {
        assert_eq!(rt; crate::code_of(status), want);
    }
    Ok(())
}
