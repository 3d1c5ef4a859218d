use super::*;
use pgw_frames::NoMemory;
use proxy_outside::{MemSink, MemSource};
use std::test::*;

mod no_report;

const NOTHING: &str =
    "sqlproxy replay 1\nphase running\nmoves 0\nfailed 0\ntaken 0\nforwarded 0\npassed 0\nreceived 0\nend\n";

const ONE_QUERY: &str =
    "sqlproxy replay 1\nphase running\nmoves 0\nfailed 0\ntaken 7\nforwarded 1\npassed 5\nreceived 47\n5200000008000000004b0000000c00000001010203045a000000054943000000\n0c54414c4c592031005a0000000549\nend\n";

/// The words of a command line, cut at blanks.
fn words_of(alloc: Global, line: &str) -> Result<Vec<Text>, NoMemory> {
    let mut words = Vec::new(alloc);
    for word in line.split(' ') {
        words.push(Text::of(alloc, word)?)?;
    }
    Ok(words)
}

/// What a replay answers and writes.
fn answered(
    alloc: Global,
    word: &str,
    schedule: &mut MemSource,
) -> Result<(Status, String), NoMemory> {
    let words = words_of(alloc, word)?;
    let mut sink = MemSink::make(alloc, 64, &[])?;
    let status = replay(alloc, words.as_slice(), schedule, &mut sink);
    let mut report = String::new(alloc);
    for c in sink.contents() {
        report.push(*c as char)?;
    }
    Ok((status, report))
}

/// The same of a source that is let go here.
fn replayed(
    alloc: Global,
    word: &str,
    mut schedule: MemSource,
) -> Result<(Status, String), NoMemory> {
    let answer = answered(alloc, word, &mut schedule);
    drop(schedule);
    answer
}

/// The same of a text in large pieces.
fn replayed_whole(alloc: Global, word: &str, text: &str) -> Result<(Status, String), NoMemory> {
    let schedule = MemSource::make(alloc, text.as_bytes(), 4096, &[], &[])?;
    replayed(alloc, word, schedule)
}

#[test]
fn schedules_and_their_reports(rt: HostRuntime) -> Result<(), Fail> {
    let rows = [
        ("", NOTHING),
        (
            "give 51000000063100\nread 7\nforward\ndeliver 7\npod\nback 64\npass\npass\npass\npass\npass\n",
            ONE_QUERY,
        ),
        (
            "give 51000000063100\nread 9\nforward\ndeliver 999\npod\npod\nback 999\npass\npass\npass\npass\npass\npass",
            ONE_QUERY,
        ),
        (
            "give 5800000004\nread 5\nforward\nback 64\npass",
            "sqlproxy replay 1\nphase closed bye\nmoves 0\nfailed 0\ntaken 5\nforwarded 1\npassed 0\nreceived 0\nend\n",
        ),
        (
            "give 5100000003\nread 5\nforward\nread 1",
            "sqlproxy replay 1\nphase closed badclient 3\nmoves 0\nfailed 0\ntaken 5\nforwarded 0\npassed 0\nreceived 0\nend\n",
        ),
    ];
    for (schedule, want) in rows {
        let source = MemSource::make(rt.alloc(), schedule.as_bytes(), 7, &[2], &[])?;
        let (status, report) = replayed(rt.alloc(), "run", source)?;
        assert_eq!(rt; status, Status::Done, "at {schedule}");
        assert!(rt; report.as_str() == want, "at {schedule}");
    }
    Ok(())
}

/// One query, answered and passed.
const QUERY: &str =
    "give 51000000063100\nread 7\nforward\ndeliver 7\npod\nback 64\npass\npass\npass\npass\npass\n";

/// A session that is asked to move.
const START: &str = "stop\npark\nhold\nstart 000102030405060708090a0b0c0d0e0f\n";

/// A whole transfer behind its start: the old pod is asked and answers, the new one is dialed, greets, and
/// is restored.
const MOVE: &str =
    "move\ndeliver 999\npod\nmove\nmove\nmove\nmove\nmove\nmove\ndeliver new 999\npod new\nmove\nmove\nmove\nmove\ndeliver new 999\npod new\nmove\nmove\nmove\nmove\n";

const SECOND_QUERY: &str =
    "give 51000000063200\nread 9\nforward\ndeliver 99\npod\nback 99\npass\npass\n";

/// A transfer behind its start, up to the dial.
const NO_DIAL: &str = "move\ndeliver 999\npod\nmove\nmove\nmove\nmove\nmove\n";

/// The report of a schedule in parts.
fn report_of_parts(alloc: Global, parts: &[&str]) -> Result<(Status, String), NoMemory> {
    let mut schedule = String::new(alloc);
    for part in parts {
        schedule.push_str(part)?;
    }
    replayed_whole(alloc, "run tally", schedule.as_str())
}

#[test]
fn sessions_that_move(rt: HostRuntime) -> Result<(), Fail> {
    let rows: [(&str, &[&str], &str); 4] = [
        // A Query in front of a copy isn't answered yet: two asked, one ready.
        (
            "a query before a copy",
            &[
                "give 51000000063100510000001643",
                "4f505920742046524f4d20535444494e00\nread 30\nforward\nforward\ndeliver 99\npod\nback 99\npass\npass\npass\npass\npass\n",
                START,
            ],
            "sqlproxy replay 1\nphase running\nmoves 0\nfailed 0\ntaken 30\nforwarded 2\npassed 5\nreceived 47\n5200000008000000004b0000000c00000001010203045a000000054943000000\n0c54414c4c592031005a0000000549\nend\n",
        ),
        // A whole copy, a move, and a query at the new pod.
        (
            "a copy, and a move",
            &[
                "give 5100000016434f505920742046524f4d20535444494e006400000006610a6400000006620a6300000004\nread 42\nforward\nforward\nforward\nforward\n",
                "deliver 99\npod\npod\npod\npod\nback 99\npass\npass\npass\npass\npass\npass\n",
                START,
                MOVE,
                "give 51000000063100\nread 7\nforward\ndeliver 99\npod\nback 99\npass\npass\n",
            ],
            "sqlproxy replay 1\nphase running\nmoves 1\nfailed 0\ntaken 49\nforwarded 5\npassed 8\nreceived 73\n5200000008000000004b0000000c00000001010203045a000000054947000000\n07000000430000000b434f50592032005a0000000549430000000c54414c4c59\n2031005a0000000549\nend\n",
        ),
        // A Parse, a Bind and an Execute behind a Sync: the last message that is no copy's is an Execute.
        (
            "an execute",
            &[
                "give 5300000004\nread 5\nforward\ndeliver 5\npod\nback 99\npass\npass\npass\npass\n",
                "give 50000000044200000004450000000464000000046300000004\nread 25\nforward\nforward\nforward\nforward\nforward\n",
                START,
            ],
            "sqlproxy replay 1\nphase running\nmoves 0\nfailed 0\ntaken 30\nforwarded 6\npassed 4\nreceived 34\n5200000008000000004b0000000c00000001010203045a00000005495a000000\n0549\nend\n",
        ),
        // A query, a move, and a query at the new pod, which goes on counting.
        (
            "a move",
            &[QUERY, "other x\n", START, MOVE, SECOND_QUERY],
            "sqlproxy replay 1\nphase running\nmoves 1\nfailed 0\ntaken 14\nforwarded 2\npassed 7\nreceived 66\n5200000008000000004b0000000c00000001010203045a000000054943000000\n0c54414c4c592031005a0000000549430000000c54414c4c592032005a000000\n0549\nend\n",
        ),
    ];
    for (name, parts, want) in rows {
        let (status, report) = report_of_parts(rt.alloc(), parts)?;
        assert_eq!(rt; status, Status::Done, "at {name}");
        assert!(rt; report.as_str() == want, "at {name}");
    }
    Ok(())
}

#[test]
fn sessions_that_stay_or_end(rt: HostRuntime) -> Result<(), Fail> {
    let rows: [(&str, &[&str], &str); 9] = [
        // The new link is cut behind the restore Query: the old pod serves on.
        (
            "new link cut",
            &[
                QUERY,
                START,
                "move\ndeliver 999\npod\nmove\nmove\nmove\nmove\nmove\nmove\ndeliver new 999\npod new\nmove\nmove\nmove\nmove\ncut new 0\nmove\n",
                SECOND_QUERY,
            ],
            "sqlproxy replay 1\nphase running\nmoves 0\nfailed 1\ntaken 14\nforwarded 2\npassed 7\nreceived 66\n5200000008000000004b0000000c00000001010203045a000000054943000000\n0c54414c4c592031005a0000000549430000000c54414c4c592032005a000000\n0549\nend\n",
        ),
        // The old link is cut inside the reply that it owes.
        (
            "old link cut",
            &[QUERY, START, "move\ndeliver 999\npod\ncut 20\nmove\n"],
            "sqlproxy replay 1\nphase closed exchangecut ended\nmoves 0\nfailed 0\ntaken 7\nforwarded 1\npassed 5\nreceived 47\n5200000008000000004b0000000c00000001010203045a000000054943000000\n0c54414c4c592031005a0000000549\nend\n",
        ),
        // A dial fails, and the next transfer moves the session.
        (
            "no dial",
            &["nodial\n", QUERY, START, NO_DIAL],
            "sqlproxy replay 1\nphase running\nmoves 0\nfailed 1\ntaken 7\nforwarded 1\npassed 5\nreceived 47\n5200000008000000004b0000000c00000001010203045a000000054943000000\n0c54414c4c592031005a0000000549\nend\n",
        ),
        (
            "no dial, and a move",
            &[QUERY, "nodial\n", START, NO_DIAL, START, MOVE, SECOND_QUERY],
            "sqlproxy replay 1\nphase running\nmoves 1\nfailed 1\ntaken 14\nforwarded 2\npassed 7\nreceived 66\n5200000008000000004b0000000c00000001010203045a000000054943000000\n0c54414c4c592031005a0000000549430000000c54414c4c592032005a000000\n0549\nend\n",
        ),
        // The client ends between messages, or inside one.
        (
            "client ends",
            &[QUERY, "eof\nforward\n"],
            "sqlproxy replay 1\nphase closed bye\nmoves 0\nfailed 0\ntaken 7\nforwarded 1\npassed 5\nreceived 47\n5200000008000000004b0000000c00000001010203045a000000054943000000\n0c54414c4c592031005a0000000549\nend\n",
        ),
        (
            "client cut",
            &[QUERY, "give 5100\nread 2\neof\nforward\n"],
            "sqlproxy replay 1\nphase closed clientcut\nmoves 0\nfailed 0\ntaken 9\nforwarded 1\npassed 5\nreceived 47\n5200000008000000004b0000000c00000001010203045a000000054943000000\n0c54414c4c592031005a0000000549\nend\n",
        ),
        // The pod ends, and what it had sent is passed first.
        (
            "pod ends",
            &[QUERY, "cut 0\npass\n"],
            "sqlproxy replay 1\nphase closed podended\nmoves 0\nfailed 0\ntaken 7\nforwarded 1\npassed 5\nreceived 47\n5200000008000000004b0000000c00000001010203045a000000054943000000\n0c54414c4c592031005a0000000549\nend\n",
        ),
        (
            "pod ends with bytes unread",
            &["cut 9\npass\nback 9\npass\npass\n"],
            "sqlproxy replay 1\nphase closed podended\nmoves 0\nfailed 0\ntaken 0\nforwarded 0\npassed 1\nreceived 9\n520000000800000000\nend\n",
        ),
        (
            "pod write",
            &[QUERY, "cut 0\ngive 51000000063200\nread 7\nforward\n"],
            "sqlproxy replay 1\nphase closed podwrite\nmoves 0\nfailed 0\ntaken 14\nforwarded 1\npassed 5\nreceived 47\n5200000008000000004b0000000c00000001010203045a000000054943000000\n0c54414c4c592031005a0000000549\nend\n",
        ),
    ];
    for (name, parts, want) in rows {
        let (status, report) = report_of_parts(rt.alloc(), parts)?;
        assert_eq!(rt; status, Status::Done, "at {name}");
        assert!(rt; report.as_str() == want, "at {name}");
    }
    Ok(())
}

#[test]
fn byte_by_byte(rt: HostRuntime) -> Result<(), Fail> {
    let mut schedule = String::from_str(rt.alloc(), "give 51000000063100\n")?;
    for (lines, times) in [
        ("read 1\nforward\n", 7),
        ("deliver 1\npod\n", 7),
        ("back 1\npass\n", 47),
    ] {
        for _ in 0..times {
            schedule.push_str(lines)?;
        }
    }
    let source = MemSource::make(rt.alloc(), schedule.as_bytes(), 5, &[], &[])?;
    drop(schedule);
    let (status, report) = replayed(rt.alloc(), "run", source)?;
    assert_eq!(rt; status, Status::Done);
    assert!(rt; report.as_str() == ONE_QUERY);
    Ok(())
}

/// The summaries are reckoned by `bench/generated.py`, which plays nothing.
#[test]
fn schedules_from_a_number(rt: HostRuntime) -> Result<(), Fail> {
    let rows = [
        (
            "gen 1 1000",
            "sqlproxy gen 1\nnumber 1\nmessages 1000\nevents 10573\nphase running\nmoves 75\nfailed 68\nforwarded 1107\npassed 1725\nreceived 16787\nsha256 cc0fa3c42e98aeca9fbd78afc75bcf1833e21b48ef15577e47d280508e7729fa\nend\n",
        ),
        (
            "gen 1 100000",
            "sqlproxy gen 1\nnumber 1\nmessages 100000\nevents 1047360\nphase running\nmoves 6381\nfailed 6220\nforwarded 112055\npassed 174758\nreceived 1825776\nsha256 09c4a0437dabf152a2cc032163dd626080f57f744da97db79388bdfb62284570\nend\n",
        ),
        (
            "gen 18446744073709551615 1",
            "sqlproxy gen 1\nnumber 18446744073709551615\nmessages 1\nevents 17\nphase running\nmoves 0\nfailed 0\nforwarded 0\npassed 3\nreceived 28\nsha256 f51ccfe640374c9f79ec4130cfccc183203bd034e926e67e7fc5c0a7d688c35d\nend\n",
        ),
    ];
    for (word, want) in rows {
        let (status, summary) = replayed_whole(rt.alloc(), word, "")?;
        assert_eq!(rt; status, Status::Done, "at {word}");
        assert!(rt; summary.as_str() == want, "at {word}");
    }
    Ok(())
}
