use super::*;
use pgw_frames::{Bytes, NoMemory};
use proxy_links::{BackMarks, Clock, Dial, Dialed, Dialer, FrontMarks, Look, Marks, Words};
use proxy_outside::{Addr, Gave, Place, PodNo, Sink, Source, Took};
use std::alloc::Global;
use std::process::Abort;
use std::test::*;

#[test]
fn lists_repeat_their_last(rt: HostRuntime) -> Result<(), NoMemory> {
    let mut clock = ListClock::make(rt.alloc(), &[7, 9])?;
    let mut words = ListWords::make(rt.alloc(), &[])?;
    for (moment, word) in [(7, 0), (9, 0), (9, 0)] {
        assert_eq!(rt; (clock.now(), words.next()), (moment, word));
    }
    Ok(())
}

#[test]
fn answers_in_turn(rt: HostRuntime) -> Result<(), NoMemory> {
    let mut board = ScriptBoard::make(rt.alloc(), &[Look::Go, Look::Park], &[Look::Over])?;
    let (mut front, mut back) = board.ends();
    let rows = [
        (Look::Go, Look::Over),
        (Look::Park, Look::Go),
        (Look::Go, Look::Go),
    ];
    for (one, two) in rows {
        assert_eq!(rt; (front.look(0), back.look(0)), (one, two));
    }
    board.back(front, back);
    Ok(())
}

#[test]
fn parks_once_at_each_number(rt: HostRuntime) -> Result<(), NoMemory> {
    let mut board = CountBoard::make(rt.alloc(), &[1, 3])?;
    let (mut front, mut back) = board.ends();
    let rows = [
        (0, Look::Go),
        (1, Look::Park),
        (1, Look::Go),
        (4, Look::Park),
        (4, Look::Go),
    ];
    for (count, want) in rows {
        assert_eq!(rt; (front.look(count), back.look(count)), (want, want));
    }
    front.finish(5);
    assert_eq!(rt; back.look(4), Look::Go);
    assert_eq!(rt; back.look(5), Look::Over);
    back.abort();
    assert_eq!(rt; front.look(4), Look::Over);
    front.abort();
    assert_eq!(rt; back.look(4), Look::Over);
    board.back(front, back);
    Ok(())
}

/// A call of a side, and its answer. What is read stands in a buffer of two bytes.
#[derive(Clone, Copy)]
enum Step {
    Reads(Took, [u8; 2]),
    Writes(u8, Gave),
}

/// Takes these steps.
fn take<S: Source, T: Sink>(rt: &impl Abort, source: &mut S, sink: &mut T, steps: &[Step]) {
    for step in steps {
        match *step {
            Step::Reads(took, bytes) => {
                let mut buf = [0; 2];
                assert_eq!(rt; (source.read(&mut buf), buf), (took, bytes));
            }
            Step::Writes(byte, gave) => assert_eq!(rt; sink.write(&[byte]), gave),
        }
    }
}

/// Pieces of a gated source, and after how many bytes each comes.
fn pieces(alloc: Global, rows: &[(u64, &[u8])]) -> Result<Vec<GatedPiece>, NoMemory> {
    let mut pieces = Vec::new(alloc);
    for (after, bytes) in rows {
        let bytes = Bytes::of(alloc, bytes)?;
        pieces.push(GatedPiece {
            after: *after,
            bytes,
        })?;
    }
    Ok(pieces)
}

#[test]
fn a_piece_waits_for_the_sink(rt: HostRuntime) -> Result<(), NoMemory> {
    let pieces = pieces(rt.alloc(), &[(0, b"abc"), (0, b""), (2, b"d")])?;
    let (mut source, mut sink) = gated(rt.alloc(), pieces, &[1])?;
    let steps = [
        Step::Reads(Took::Got(2), *b"ab"),
        Step::Reads(Took::Got(1), *b"c\0"),
        Step::Reads(Took::Idle, [0; 2]),
        Step::Writes(b'x', Gave::Failed),
        Step::Writes(b'x', Gave::Took(1)),
        Step::Reads(Took::Idle, [0; 2]),
        Step::Writes(b'y', Gave::Took(1)),
        Step::Reads(Took::Got(1), *b"d\0"),
        Step::Reads(Took::End, [0; 2]),
    ];
    take(&rt, &mut source, &mut sink, &steps);
    assert_eq!(rt; sink.contents(), b"xy".as_slice());
    Ok(())
}

#[test]
fn who_comes_alone_fails(rt: HostRuntime) -> Result<(), NoMemory> {
    let (mut source, mut sink) = meeting(rt.alloc(), b"ab", b"c", 1, 3)?;
    let steps = [
        Step::Reads(Took::Got(2), *b"ab"),
        Step::Reads(Took::Failed, [0; 2]),
        Step::Writes(b'x', Gave::Took(1)),
        Step::Writes(b'y', Gave::Took(1)),
        Step::Reads(Took::Got(1), *b"c\0"),
        Step::Reads(Took::End, [0; 2]),
    ];
    take(&rt, &mut source, &mut sink, &steps);
    assert_eq!(rt; sink.contents(), b"xy".as_slice());
    Ok(())
}

/// A link whose pod sends these bytes.
fn sends(alloc: Global, bytes: &[u8]) -> Result<ScriptDial, NoMemory> {
    Ok(ScriptDial::Link(ScriptLink {
        bytes: Bytes::of(alloc, bytes)?,
        idle: Vec::from_slice(alloc, &[2])?,
        failing_reads: Vec::new(alloc),
        failing_writes: Vec::from_slice(alloc, &[2])?,
    }))
}

/// A dialer whose first dial fails, and whose second gives a link.
fn dialer(alloc: Global) -> Result<ScriptDialer, NoMemory> {
    let link = sends(alloc, b"Z")?;
    let dials = vec![in alloc; ScriptDial::Failed, link]?;
    ScriptDialer::make(alloc, dials)
}

/// What two writes and three reads give on a link that is then hung up, or that no link came.
fn talk(dialer: &mut ScriptDialer, at: Place) -> Option<([Gave; 2], [Took; 3])> {
    match dialer.dial(at) {
        Dialed::Link(mut tx, mut rx) => {
            let mut buf = [0; 4];
            let gave = [tx.write(b"ab"), tx.write(b"c")];
            let took = [rx.read(&mut buf), rx.read(&mut buf), rx.read(&mut buf)];
            dialer.hang_up(tx, rx);
            Some((gave, took))
        }
        Dialed::Failed => None,
    }
}

/// Whether this one link was hung up.
fn is_hung_up(dialer: &ScriptDialer, at: Place, sent: &[u8]) -> bool {
    match dialer.hung_up() {
        [link] => link.place == at && link.tx.contents() == sent,
        _ => false,
    }
}

#[test]
fn a_link_is_dialed_and_hung_up(rt: HostRuntime) -> Result<(), NoMemory> {
    let at = Place {
        pod: PodNo(1),
        addr: Addr::V4(0x7f00_0001),
        port: 26257,
    };
    let mut dialer = dialer(rt.alloc())?;
    let link = (
        [Gave::Took(2), Gave::Failed],
        [Took::Got(1), Took::Idle, Took::End],
    );
    for (talked, came) in [(None, false), (Some(link), true), (None, false)] {
        assert_eq!(rt; talk(&mut dialer, at), talked);
        assert!(rt; dialer.dials().last() == Some(&Dial { place: at, came }));
    }
    assert!(rt; is_hung_up(&dialer, at, b"ab"));
    Ok(())
}
