use super::*;
use std::test::*;

/// What the next call answers, where a frame is told by its type byte and the length of its body.
fn told(next: Next) -> (char, u32) {
    match next {
        Next::Frame(f) => (f.tag as char, f.body.len().min(65_535) as u32),
        Next::Need => ('-', 0),
        Next::BadLength(n) => ('!', n),
    }
}

#[test]
fn lengths_of_the_manual(rt: HostRuntime) -> Result<(), Fail> {
    let rows: [(&[u8], char, u32); 4] = [
        (&[0x51, 0, 0, 0, 3], '!', 3),
        (&[0x53, 0, 0, 0, 4], 'S', 0),
        (&[0x64, 0x01, 0, 0, 4], '-', 0),
        (&[0x64, 0x01, 0, 0, 5], '!', 16_777_221),
    ];
    for (bytes, tag, n) in rows {
        let mut c = Cutter::new(rt.alloc());
        c.feed(bytes)?;
        assert_eq!(rt; told(c.next()?), (tag, n), "at {tag}");
        let again = if tag == 'S' { ('-', 0) } else { (tag, n) };
        assert_eq!(rt; told(c.next()?), again, "again at {tag}");
    }
    Ok(())
}

/// What is lent, told in the same way.
fn lent(ahead: Ahead<'_>) -> (char, u32) {
    match ahead {
        Ahead::Frame(bytes) => {
            let tag = bytes.first().copied().unwrap_or(0);
            (
                tag as char,
                bytes.len().saturating_sub(5).min(65_535) as u32,
            )
        }
        Ahead::Need => ('-', 0),
        Ahead::BadLength(n) => ('!', n),
    }
}

#[test]
fn frames_that_are_lent(rt: HostRuntime) -> Result<(), Fail> {
    let mut c = Cutter::new(rt.alloc());
    c.feed(b"Q\0\0\0\x061\0S\0\0\0\x04d\0\0\0\x03")?;
    let rows = [
        ('Q', 2, Some(81), 10),
        ('S', 0, Some(83), 5),
        ('!', 3, None, 5),
    ];
    for (tag, n, dropped, left) in rows {
        assert_eq!(rt; lent(c.ahead()), (tag, n), "at {tag}");
        assert_eq!(rt; c.advance(), dropped, "at {tag}");
        assert_eq!(rt; c.held(), left, "at {tag}");
    }
    Ok(())
}

#[test]
fn a_stream_in_pieces(rt: HostRuntime) -> Result<(), Fail> {
    let alloc = rt.alloc();
    let query = Frame {
        tag: b'Q',
        body: Bytes::of(alloc, b"1\0")?,
    };
    let mut whole = Bytes::new(alloc);
    write_frame(&query, &mut whole)?;
    assert_eq!(rt; whole.as_slice(), b"\x51\0\0\0\x06\x31\0".as_slice());
    let (front, back) = whole.as_slice().split_at(3);
    let mut pieces = Vec::new(alloc);
    pieces.push(Bytes::of(alloc, front)?)?;
    pieces.push(Bytes::of(alloc, back)?)?;
    pieces.push(Bytes::of(alloc, &[0x58, 0, 0, 0, 3])?)?;
    let cuts = cut_all(alloc, pieces.as_slice())?;
    assert_eq!(rt; cuts.frames.len(), 1);
    assert_eq!(rt; cuts.frames.get(0).map(|f| f.body.len()), Some(2));
    assert_eq!(rt; cuts.bad, Some(3));
    Ok(())
}

#[test]
fn bytes_and_texts(rt: HostRuntime) -> Result<(), Fail> {
    let alloc = rt.alloc();
    let mut b = Bytes::from_vec(Bytes::of(alloc, b"ab")?.into_vec());
    b.extend(b"cd")?;
    b.truncate(3);
    assert_eq!(rt; b.as_slice(), b"abc".as_slice());
    assert!(rt; !b.is_empty());
    let t = Text::from_string(Text::of(alloc, "tally")?.into_string());
    assert_eq!(rt; t.as_str(), "tally");
    let mut fs = Frames::new(alloc);
    assert!(rt; fs.is_empty());
    fs.push(Frame { tag: b'Z', body: b })?;
    let fs = Frames::from_vec(fs.into_vec());
    assert_eq!(rt; fs.as_slice().len(), 1);
    Ok(())
}
