use super::*;
use std::io::Cursor;
use std::test::*;

#[test]
fn a_source_in_pieces(rt: HostRuntime) -> Result<(), Fail> {
    let mut s = MemSource::make(rt.alloc(), b"abcde", 2, &[2], &[3])?;
    let mut buf = [0u8; 4];
    let rows = [
        (Took::Got(2), b'a'),
        (Took::Idle, b'a'),
        (Took::Failed, b'a'),
        (Took::Got(2), b'c'),
        (Took::Got(1), b'e'),
        (Took::End, b'e'),
        (Took::End, b'e'),
    ];
    for (want, first) in rows {
        assert_eq!(rt; s.read(&mut buf), want);
        assert_eq!(rt; buf[0], first, "at {want:?}");
    }
    Ok(())
}

#[test]
fn a_sink_in_pieces(rt: HostRuntime) -> Result<(), Fail> {
    let mut k = MemSink::make(rt.alloc(), 3, &[2])?;
    assert_eq!(rt; k.write(b"abcde"), Gave::Took(3));
    assert_eq!(rt; k.write(b"de"), Gave::Failed);
    assert_eq!(rt; k.write(b"de"), Gave::Took(2));
    assert_eq!(rt; k.contents(), b"abcde".as_slice());
    Ok(())
}

#[test]
fn a_reader_and_a_writer(rt: HostRuntime) -> Result<(), Fail> {
    let alloc = rt.alloc();
    let mut s = ReaderSource::make(alloc, Cursor::new(b"abc"), 2)?;
    let mut buf = [0u8; 4];
    assert_eq!(rt; s.read(&mut buf), Took::Got(2));
    assert_eq!(rt; buf, [b'a', b'b', 0, 0]);
    assert_eq!(rt; s.read(&mut buf), Took::Got(1));
    assert_eq!(rt; s.read(&mut buf), Took::End);
    let mut k = WriterSink::new(Vec::new(alloc));
    assert_eq!(rt; k.write(b"abc"), Gave::Took(3));
    Ok(())
}

#[test]
fn addresses_that_map_ipv4(rt: HostRuntime) {
    // RFC 4291, 2.5.5.2: ::ffff:192.0.2.1; and three beside it.
    let rows = [
        (0xffff_c000_0201, Addr::V4(0xc000_0201)),
        (0xc000_0201, Addr::V6(0xc000_0201)),
        (0xfffe_c000_0201, Addr::V6(0xfffe_c000_0201)),
        (0x1_ffff_c000_0201, Addr::V6(0x1_ffff_c000_0201)),
    ];
    for (bits, want) in rows {
        assert_eq!(rt; Addr::from_v6(bits), want, "at {bits}");
    }
}
