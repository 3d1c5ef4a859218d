use super::*;
use pgw_frames::{Cutter, NoMemory};
use proxy_outside::{MemSource, Took};
use std::test::*;

/// A step as it is told here: what it is, and its number.
fn told(step: &Step) -> (&str, u32) {
    match step {
        Step::Frame(f) => ("frame", f.tag as u32),
        Step::Need => ("need", 0),
        Step::Bad(n) => ("bad", *n),
        Step::Stopped => ("stopped", 0),
    }
}

/// What is lent, told in the same way.
fn lent(peek: Peek<'_>) -> (&'static str, u32) {
    match peek {
        Peek::Frame(bytes) => ("frame", bytes.first().copied().unwrap_or(0) as u32),
        Peek::Need => ("need", 0),
        Peek::Bad(n) => ("bad", n),
        Peek::Stopped => ("stopped", 0),
    }
}

#[test]
fn messages_that_are_lent(rt: HostRuntime) -> Result<(), NoMemory> {
    let mut request = Request::new(rt.alloc());
    let mut response = Response::new(rt.alloc());
    request.feed(b"Q\0\0\0\x061\0S\0\0\0\x04X\0\0\0\x03")?;
    response.feed(b"Z\0\0\0\x05IZ\0\0\0\x05I")?;
    let rows = [
        (("frame", 81), 1, ("frame", 90), 1),
        (("frame", 83), 2, ("frame", 90), 2),
        (("bad", 3), 2, ("need", 0), 2),
    ];
    for (ask, qs, reply, zs) in rows {
        request.suspend();
        assert_eq!(rt; lent(request.peek()), ("stopped", 0));
        request.advance();
        request.resume();
        assert_eq!(rt; lent(request.peek()), ask);
        assert_eq!(rt; lent(response.peek()), reply);
        request.advance();
        response.advance();
        assert_eq!(rt; (request.tally().qs, response.tally().zs), (qs, zs));
    }
    Ok(())
}

#[test]
fn a_client_in_pieces(rt: HostRuntime) -> Result<(), NoMemory> {
    let mut request = Request::new(rt.alloc());
    let rows: [(&[u8], (&str, u32)); 5] = [
        (b"", ("need", 0)),
        (b"Q\0\0", ("need", 0)),
        (b"\0\x061\0S\0\0\0", ("frame", 81)),
        (b"\x04d\0\0\0\x05", ("frame", 83)),
        (b"aX", ("frame", 100)),
    ];
    for (piece, want) in rows {
        request.feed(piece)?;
        assert_eq!(rt; told(&request.next()?), want);
    }
    assert_eq!(rt; told(&request.next()?), ("need", 0));
    Ok(())
}

#[test]
fn messages_that_are_read(rt: HostRuntime) -> Result<(), NoMemory> {
    let mut request = Request::new(rt.alloc());
    let mut client = MemSource::make(rt.alloc(), b"Q\0\0\0\x061\0S\0", 7, &[2], &[4])?;
    let rows = [
        (Took::Got(7), ("frame", 81)),
        (Took::Idle, ("need", 0)),
        (Took::Got(2), ("need", 0)),
        (Took::Failed, ("need", 0)),
        (Took::End, ("need", 0)),
    ];
    for (took, step) in rows {
        assert_eq!(rt; request.fill(&mut client)?, took);
        assert_eq!(rt; told(&request.next()?), step);
    }
    Ok(())
}

#[test]
fn a_pod_that_is_read_behind_its_greeting(rt: HostRuntime) -> Result<(), NoMemory> {
    let mut cutter = Cutter::new(rt.alloc());
    cutter.feed(b"R\0\0\0\x04Z\0")?;
    let _greeting = cutter.next()?;
    let mut response = Response::behind(cutter);
    let mut pod = MemSource::make(rt.alloc(), b"\0\0\x05I", 4, &[], &[])?;
    assert_eq!(rt; response.fill(&mut pod)?, Took::Got(4));
    assert_eq!(rt; told(&response.next()?), ("frame", 90));
    Ok(())
}

#[test]
fn what_a_client_sent_is_counted(rt: HostRuntime) -> Result<(), NoMemory> {
    let mut request = Request::new(rt.alloc());
    let none = request.tally();
    assert_eq!(rt;
        (none.qs, none.last, none.last_plain, none.at_boundary),
        (0, 0, 0, true)
    );
    let rows: [(&[u8], (u64, u8, u8)); 7] = [
        (b"Q\0\0\0\x061\0", (1, 81, 81)),
        (b"d\0\0\0\x04", (1, 100, 81)),
        (b"c\0\0\0\x04", (1, 99, 81)),
        (b"P\0\0\0\x04", (1, 80, 80)),
        (b"f\0\0\0\x04", (1, 102, 80)),
        (b"S\0\0\0\x04", (2, 83, 83)),
        (b"S\0\0\0", (2, 83, 83)),
    ];
    for (piece, want) in rows {
        request.feed(piece)?;
        let _step = request.next()?;
        let tally = request.tally();
        assert_eq!(rt; (tally.qs, tally.last, tally.last_plain), want);
        assert!(rt; tally.at_boundary);
    }
    Ok(())
}

#[test]
fn what_a_pod_sent_is_counted(rt: HostRuntime) -> Result<(), NoMemory> {
    let mut response = Response::new(rt.alloc());
    let none = response.tally();
    assert_eq!(rt; (none.zs, none.last, none.empty), (0, 0, true));
    let rows: [(&[u8], (u64, u8, bool)); 5] = [
        (b"C\0\0\0\x05\0Z", (0, 67, false)),
        (b"\0\0\0\x05", (0, 67, false)),
        (b"I", (1, 90, true)),
        (b"Z\0\0\0\x05IN\0\0\0\x04", (2, 90, false)),
        (b"", (2, 78, true)),
    ];
    for (piece, want) in rows {
        response.feed(piece)?;
        let _step = response.next()?;
        let tally = response.tally();
        assert_eq!(rt; (tally.zs, tally.last, tally.empty), want);
    }
    Ok(())
}

#[test]
fn nothing_is_lost_while_suspended(rt: HostRuntime) -> Result<(), NoMemory> {
    let mut request = Request::new(rt.alloc());
    let mut response = Response::new(rt.alloc());
    request.feed(b"S\0\0")?;
    response.feed(b"Z\0\0")?;
    request.suspend();
    response.suspend();
    request.feed(b"\0\x04S\0\0\0\x03")?;
    response.feed(b"\0\x05I")?;
    assert_eq!(rt; told(&request.next()?), ("stopped", 0));
    assert_eq!(rt; told(&response.next()?), ("stopped", 0));
    assert_eq!(rt; (request.tally().qs, response.tally().zs), (0, 0));
    request.resume();
    response.resume();
    assert_eq!(rt; told(&request.next()?), ("frame", 83));
    assert_eq!(rt; told(&response.next()?), ("frame", 90));
    assert_eq!(rt; told(&request.next()?), ("bad", 3));
    assert_eq!(rt; told(&request.next()?), ("bad", 3));
    assert_eq!(rt; (request.tally().qs, response.tally().zs), (1, 1));
    Ok(())
}
