use super::*;
use pgw_frames::{Bytes, Frame, NoMemory};
use proxy_outside::{MemSink, MemSource};
use std::test::*;

#[test]
fn a_reading_and_its_cuts(rt: HostRuntime) -> Result<(), NoMemory> {
    // The source gives `abcdef`, two bytes at once; the second call is idle.
    let rows: [(&[u64], u64, usize, Result<u64, ReadCut>); 6] = [
        (&[], 3, 5, Ok(2)),
        (&[], 2, 5, Err(ReadCut::Late(2))),
        (&[], 2, 2, Ok(1)),
        (&[3], 3, 5, Err(ReadCut::Fault)),
        (&[], 3, 7, Err(ReadCut::Ended)),
        (&[1], 3, 0, Ok(1)),
    ];
    for (failing, patience, count, want) in rows {
        let mut source = MemSource::make(rt.alloc(), b"abcdef", 2, &[2], failing)?;
        let mut buf = [0u8; 8];
        let got = read_exact(&mut source, &mut buf[..count], 1, patience);
        assert_eq!(rt; got, want);
        if got.is_ok() {
            assert_eq!(rt; &buf[..count], &b"abcdef"[..count]);
        }
    }
    Ok(())
}

#[test]
fn a_message_in_parts(rt: HostRuntime) -> Result<(), NoMemory> {
    let text: &[u8] = b"Q\0\0\0\x061\0";
    let frame = Frame {
        tag: b'Q',
        body: Bytes::of(rt.alloc(), b"1\0")?,
    };
    for (piece, failing, written) in [(9, 9, 7), (1, 9, 7), (9, 2, 5), (2, 4, 5), (1, 1, 0)] {
        let mut sink = MemSink::make(rt.alloc(), piece, &[failing])?;
        assert_eq!(rt; write_message(&mut sink, &frame), written == 7);
        assert_eq!(rt; sink.contents(), &text[..written]);
    }
    let mut sink = MemSink::make(rt.alloc(), 3, &[])?;
    assert!(rt; write_all(&mut sink, text));
    assert_eq!(rt; sink.contents(), text);
    Ok(())
}
