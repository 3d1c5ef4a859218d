use super::*;
use forwarder_world::{Close, Counts, Event, Phase};
use pgw_frames::NoMemory;
use proxy_outside::{MemSink, MemSource};
use std::alloc::Global;
use std::test::*;
use tally_session::Nothing;
use transfer_stages::Cut;

/// A line of a schedule as its event is told here: the variant's name and its number.
fn told(event: &Option<Event<Nothing>>) -> (&str, u64) {
    match event {
        Some(Event::Give(bytes)) => ("give", bytes.len() as u64),
        Some(Event::Read(n)) => ("read", *n as u64),
        Some(Event::Forward) => ("forward", 0),
        Some(Event::Deliver(n)) => ("deliver", *n as u64),
        Some(Event::Pod) => ("pod", 0),
        Some(Event::Back(n)) => ("back", *n as u64),
        Some(Event::Pass) => ("pass", 0),
        Some(Event::Eof) => ("eof", 0),
        Some(Event::Other(_)) => ("other", 0),
        Some(Event::Stop) => ("stop", 0),
        Some(Event::Park) => ("park", 0),
        Some(Event::Hold) => ("hold", 0),
        Some(Event::Start(key)) => ("start", key.low),
        Some(Event::Move) => ("move", 0),
        Some(Event::DeliverNew(n)) => ("deliver new", *n as u64),
        Some(Event::PodNew) => ("pod new", 0),
        Some(Event::Cut(n)) => ("cut", *n as u64),
        Some(Event::CutNew(n)) => ("cut new", *n as u64),
        Some(Event::NoDial) => ("nodial", 0),
        None => ("none", 0),
    }
}

#[test]
fn lines_that_spell_events(rt: HostRuntime) -> Result<(), Fail> {
    let rows = [
        ("give 51000000063100", ("give", 7)),
        ("give 00", ("give", 1)),
        ("read 7", ("read", 7)),
        ("read 0", ("read", 0)),
        ("forward", ("forward", 0)),
        ("deliver 999", ("deliver", 999)),
        ("pod", ("pod", 0)),
        ("back 65535", ("back", 65535)),
        ("pass", ("pass", 0)),
        ("eof", ("eof", 0)),
        ("other x", ("other", 0)),
        ("other  \r", ("other", 0)),
        ("stop", ("stop", 0)),
        ("park", ("park", 0)),
        ("hold", ("hold", 0)),
        (
            "start 000102030405060708090a0b0c0d0e0f",
            ("start", 0x08090a0b0c0d0e0f),
        ),
        ("start ffffffffffffffff0000000000000001", ("start", 1)),
        ("move", ("move", 0)),
        ("deliver new 999", ("deliver new", 999)),
        ("pod new", ("pod new", 0)),
        ("cut 20", ("cut", 20)),
        ("cut new 0", ("cut new", 0)),
        ("nodial", ("nodial", 0)),
    ];
    for (line, want) in rows {
        let event = event_of::<Nothing, TallyCommands>(rt.alloc(), line.as_bytes())?;
        assert_eq!(rt; told(&event), want, "at {line}");
    }
    Ok(())
}

#[test]
fn lines_that_spell_none(rt: HostRuntime) -> Result<(), Fail> {
    let rows = [
        "",
        " ",
        "pss",
        "Pass",
        "pass ",
        " pass",
        "pass\r",
        "passs",
        "pod 1",
        "give",
        "give ",
        "give 5",
        "give 5A",
        "give 5g",
        "give 51 ",
        "give  51",
        "read",
        "read ",
        "read 01",
        "read 00",
        "read +1",
        "read -1",
        "read 65536",
        "read 99999999999",
        "read 7 ",
        "read 7\r",
        "read  7",
        "deliver x",
        "back 1.0",
        "eof ",
        "stop now",
        "moves",
        "other",
        "other ",
        "start",
        "start 00",
        "start 000102030405060708090a0b0c0d0e",
        "start 000102030405060708090a0b0c0d0e0f00",
        "start 000102030405060708090A0b0c0d0e0f",
        "deliver new",
        "deliver new x",
        "deliver news 1",
        "pod  new",
        "cut",
        "cut new",
        "cut new 01",
        "nodial 1",
    ];
    for line in rows {
        let event = event_of::<Nothing, TallyCommands>(rt.alloc(), line.as_bytes())?;
        assert_eq!(rt; told(&event), ("none", 0), "at {line}");
    }
    let event = event_of::<Nothing, TallyCommands>(rt.alloc(), &[112, 97, 115, 115, 255])?;
    assert_eq!(rt; told(&event), ("none", 0));
    Ok(())
}

/// A line that gives so many bytes.
fn long_line(alloc: Global, count: usize) -> Result<Vec<u8>, NoMemory> {
    let mut line = Vec::from_slice(alloc, b"give ")?;
    for _ in 0..count {
        line.extend_from_slice(b"61")?;
    }
    Ok(line)
}

#[test]
fn a_line_has_a_limit(rt: HostRuntime) -> Result<(), Fail> {
    for (count, want) in [
        (4097, ("give", 4097)),
        (8189, ("give", 8189)),
        (8190, ("none", 0)),
    ] {
        let line = long_line(rt.alloc(), count)?;
        let event = event_of::<Nothing, TallyCommands>(rt.alloc(), line.as_slice())?;
        assert_eq!(rt; told(&event), want);
    }
    Ok(())
}

#[test]
fn lines_of_a_text(rt: HostRuntime) {
    let rows: [(&str, [Option<&str>; 3]); 5] = [
        ("", [None, None, None]),
        ("\n", [Some(""), None, None]),
        ("pod\npass", [Some("pod"), Some("pass"), None]),
        ("pod\r\n\n", [Some("pod\r"), Some(""), None]),
        ("pod\n\npass\n", [Some("pod"), Some(""), Some("pass")]),
    ];
    for (text, wants) in rows {
        let mut lines = Lines::of(text.as_bytes());
        for want in wants {
            let line = lines.next_line();
            assert_eq!(rt; line, want.map(|w| w.as_bytes()), "at {text}");
        }
    }
}

#[test]
fn reading_to_the_end(rt: HostRuntime) -> Result<(), Fail> {
    let mut source = MemSource::make(rt.alloc(), b"pod\npass\n", 2, &[2, 3], &[])?;
    match read_all(rt.alloc(), &mut source) {
        Input::All(bytes) => assert_eq!(rt; bytes.as_slice(), b"pod\npass\n".as_slice()),
        other => assert!(rt; false, "{other:?}"),
    }
    Ok(())
}

#[test]
fn reading_that_fails(rt: HostRuntime) -> Result<(), Fail> {
    let mut source = MemSource::make(rt.alloc(), b"pod\npass\n", 2, &[], &[3])?;
    assert!(rt; matches!(read_all(rt.alloc(), &mut source), Input::ReadFault));
    Ok(())
}

#[test]
fn reading_that_waits(rt: HostRuntime) -> Result<(), Fail> {
    let mut idle = Vec::new(rt.alloc());
    for call in 2..1002u64 {
        idle.push(call)?;
    }
    let mut source = MemSource::make(rt.alloc(), b"pod\n", 2, idle.as_slice(), &[])?;
    assert!(rt; matches!(read_all(rt.alloc(), &mut source), Input::Late(1000)));
    Ok(())
}

#[test]
fn writing_in_pieces(rt: HostRuntime) -> Result<(), Fail> {
    let mut sink = MemSink::make(rt.alloc(), 2, &[])?;
    assert!(rt; write_all(&mut sink, b"abcde"));
    assert_eq!(rt; sink.contents(), b"abcde".as_slice());
    let mut broken = MemSink::make(rt.alloc(), 2, &[3])?;
    assert!(rt; !write_all(&mut broken, b"abcdef"));
    assert_eq!(rt; broken.contents(), b"abcd".as_slice());
    Ok(())
}

#[test]
fn the_report_of_one_query(rt: HostRuntime) -> Result<(), Fail> {
    let counts = Counts {
        moves: 0,
        failed: 0,
        taken: 7,
        forwarded: 1,
        passed: 5,
    };
    let received =
        b"R\0\0\0\x08\0\0\0\0K\0\0\0\x0c\0\0\0\x01\x01\x02\x03\x04Z\0\0\0\x05IC\0\0\0\x0cTALLY 1\0Z\0\0\0\x05I";
    let report = report_of(rt.alloc(), &Phase::Running, &counts, received)?;
    let want =
        b"sqlproxy replay 1\nphase running\nmoves 0\nfailed 0\ntaken 7\nforwarded 1\npassed 5\nreceived 47\n5200000008000000004b0000000c00000001010203045a000000054943000000\n0c54414c4c592031005a0000000549\nend\n";
    assert_eq!(rt; report.as_slice(), want.as_slice());
    Ok(())
}

#[test]
fn the_report_of_nothing(rt: HostRuntime) -> Result<(), Fail> {
    let counts = Counts {
        moves: 0,
        failed: 0,
        taken: 0,
        forwarded: 0,
        passed: 0,
    };
    let report = report_of(rt.alloc(), &Phase::Running, &counts, b"")?;
    let want =
        b"sqlproxy replay 1\nphase running\nmoves 0\nfailed 0\ntaken 0\nforwarded 0\npassed 0\nreceived 0\nend\n";
    assert_eq!(rt; report.as_slice(), want.as_slice());
    Ok(())
}

/// Whether this is the second line of a report.
fn is_phase_line(alloc: Global, phase: &Phase, line: &str) -> Result<bool, NoMemory> {
    let counts = Counts {
        moves: 1,
        failed: 2,
        taken: 3,
        forwarded: 4,
        passed: 5,
    };
    let report = report_of(alloc, phase, &counts, b"")?;
    let mut lines = Lines::of(report.as_slice());
    let _first = lines.next_line();
    Ok(lines.next_line() == Some(line.as_bytes()))
}

#[test]
fn the_words_of_phases(rt: HostRuntime) -> Result<(), Fail> {
    let rows = [
        (Phase::Stop, "phase stop"),
        (Phase::Parked, "phase parked"),
        (Phase::Exchange, "phase exchange"),
        (Phase::Closed(Close::Bye), "phase closed bye"),
        (Phase::Closed(Close::ClientCut), "phase closed clientcut"),
        (
            Phase::Closed(Close::BadClient(3)),
            "phase closed badclient 3",
        ),
        (Phase::Closed(Close::PodEnded), "phase closed podended"),
        (Phase::Closed(Close::PodWrite), "phase closed podwrite"),
        (
            Phase::Closed(Close::ExchangeCut(Cut::Ended)),
            "phase closed exchangecut ended",
        ),
        (
            Phase::Closed(Close::ExchangeCut(Cut::WriteFault)),
            "phase closed exchangecut write",
        ),
        (
            Phase::Closed(Close::ExchangeCut(Cut::Strayed(83))),
            "phase closed exchangecut other",
        ),
    ];
    for (phase, want) in rows {
        assert!(rt; is_phase_line(rt.alloc(), &phase, want)?, "{want}");
    }
    Ok(())
}
