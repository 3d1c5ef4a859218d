use super::*;
use pgw_frames::{Bytes, Frame, Frames, MOST_BODY, NoMemory, write_frame};
use pgw_messages::Params;
use session_model::{Dump, Session, Solo};
use std::alloc::Global;
use std::process::Abort;
use std::test::*;

/// Whether the frames go out so.
fn are(alloc: Global, frames: &Frames, want: &[u8]) -> Result<bool, NoMemory> {
    let mut out = Bytes::new(alloc);
    for f in frames.as_slice() {
        if f.body.len() <= MOST_BODY {
            write_frame(f, &mut out)?;
        }
    }
    Ok(out.as_slice() == want)
}

fn message(alloc: Global, tag: u8, body: &[u8]) -> Result<Frame, NoMemory> {
    let body = Bytes::of(alloc, body)?;
    Ok(Frame { tag, body })
}

/// A session with this token.
fn begun(alloc: Global, token: &str) -> Result<TallySession, NoMemory> {
    let mut p = Params::new(alloc);
    p.put("crdb:session_token_base64", token)?;
    let (s, _) = TallySession::begin(alloc, &p)?;
    Ok(s)
}

/// What it replies to a message.
fn told(alloc: Global, s: &mut TallySession, tag: u8, body: &[u8]) -> Result<Frames, NoMemory> {
    let f = message(alloc, tag, body)?;
    s.tell(alloc, &f, None)
}

/// A message's tag and body, and what is replied, as it goes out.
type Row<'a> = (u8, &'a [u8], &'a [u8]);

/// Whether it replies so.
fn replies(alloc: Global, s: &mut TallySession, row: &Row) -> Result<bool, NoMemory> {
    let (tag, body, want) = *row;
    let replies = told(alloc, s, tag, body)?;
    are(alloc, &replies, want)
}

/// Whether the second frame of what it replies to a Query has this body.
fn has_row(alloc: Global, s: &mut TallySession, ask: &[u8], row: &[u8]) -> Result<bool, NoMemory> {
    let replies = told(alloc, s, b'Q', ask)?;
    Ok(replies.get(1).is_some_and(|f| f.body.as_slice() == row))
}

#[test]
fn how_it_greets(rt: HostRuntime) -> Result<(), NoMemory> {
    let p = Params::new(rt.alloc());
    let (_, greeting) = TallySession::begin(rt.alloc(), &p)?;
    let want = b"R\0\0\0\x08\0\0\0\0K\0\0\0\x0c\0\0\0\0\0\0\0\0Z\0\0\0\x05I";
    assert_eq!(rt; are(rt.alloc(), &greeting, want), Ok(true));
    Ok(())
}

#[test]
fn what_it_replies(rt: HostRuntime) -> Result<(), NoMemory> {
    let rows: [Row; 16] = [
        (b'S', b"", b"Z\0\0\0\x05I"),
        (b'Q', b"1\0", b"C\0\0\0\x0cTALLY 1\0Z\0\0\0\x05I"),
        (b'P', b"p\0SELECT 1\0\0\0", b""),
        (b'c', b"", b""),
        (b'Q', b"COPY t FROM STDIN\0", b"G\0\0\0\x07\0\0\0"),
        (b'd', b"a\n", b""),
        (b'S', b"", b""),
        (b'H', b"", b""),
        (b'd', b"b\n", b""),
        (b'c', b"", b"C\0\0\0\x0bCOPY 2\0Z\0\0\0\x05I"),
        (b'Q', b"COPY t FROM STDIN\0", b"G\0\0\0\x07\0\0\0"),
        (
            b'f',
            b"no\0",
            b"E\0\0\0\x27SERROR\0VERROR\0C57014\0Mcopy failed\0\0Z\0\0\0\x05I",
        ),
        (b'Q', b"COPY t FROM STDIN\0", b"G\0\0\0\x07\0\0\0"),
        (
            b'Q',
            b"2\0",
            b"E\0\0\0\x33SERROR\0VERROR\0C08P01\0Mcopy ended by a message\0\0Z\0\0\0\x05IC\0\0\0\x0cTALLY 2\0Z\0\0\0\x05I",
        ),
        (b'Q', b"COPY\0t\0", b"C\0\0\0\x0cTALLY 3\0Z\0\0\0\x05I"),
        (b'Q', b"COPY t", b"C\0\0\0\x0cTALLY 4\0Z\0\0\0\x05I"),
    ];
    let mut s = begun(rt.alloc(), "")?;
    for row in &rows {
        assert_eq!(rt; replies(rt.alloc(), &mut s, row), Ok(true), "at {row:?}");
    }
    Ok(())
}

/// Whether it is dumped so after a Query.
fn dumps(
    alloc: Global,
    s: &mut TallySession,
    query: &[u8],
    want: Result<&[u8], &str>,
) -> Result<bool, NoMemory> {
    told(alloc, s, b'Q', query)?;
    let dump = s.dump(alloc)?;
    let dumped = match &dump {
        Dump::Blob(b) => Ok(b.as_slice()),
        Dump::Not(why) => Err(why.as_str()),
    };
    Ok(dumped == want)
}

#[test]
fn what_it_dumps(rt: HostRuntime) -> Result<(), NoMemory> {
    let rows: [(&[u8], Result<&[u8], &str>); 2] = [
        (b"1\0", Ok(b"\0\0\0\0\0\0\0\x01")),
        (b"COPY t FROM STDIN\0", Err("session is in a copy")),
    ];
    let mut s = begun(rt.alloc(), "")?;
    for (query, want) in rows {
        assert_eq!(rt;
            dumps(rt.alloc(), &mut s, query, want),
            Ok(true),
            "after {query:?}"
        );
    }
    Ok(())
}

#[test]
fn what_it_moves(rt: HostRuntime) -> Result<(), NoMemory> {
    let ask = b"SHOW TRANSFER STATE WITH '000102030405060708090a0b0c0d0e0f'\0";
    let row =
        b"\0\x04\0\0\0\0\0\0\0\x0cAAAAAAAAAAE=\0\0\0\x04dG9r\0\0\0\x20000102030405060708090a0b0c0d0e0f";
    let mut s = begun(rt.alloc(), "dG9r")?;
    let query = (
        b'Q',
        b"1\0".as_slice(),
        b"C\0\0\0\x0cTALLY 1\0Z\0\0\0\x05I".as_slice(),
    );
    assert_eq!(rt; replies(rt.alloc(), &mut s, &query), Ok(true));
    assert_eq!(rt; has_row(rt.alloc(), &mut s, ask, row), Ok(true));
    Ok(())
}

#[test]
fn what_is_restored(rt: HostRuntime) -> Result<(), NoMemory> {
    let give = b"SELECT crdb_internal.deserialize_session(decode('AAAAAAAAAAE=','base64'))\0";
    let mut s = begun(rt.alloc(), "")?;
    assert_eq!(rt;
        has_row(rt.alloc(), &mut s, give, b"\0\x01\0\0\0\x01t"),
        Ok(true)
    );
    let query = (
        b'Q',
        b"2\0".as_slice(),
        b"C\0\0\0\x0cTALLY 2\0Z\0\0\0\x05I".as_slice(),
    );
    assert_eq!(rt; replies(rt.alloc(), &mut s, &query), Ok(true));
    Ok(())
}

/// Whether the session that is never moved replies so to a message.
fn alone(alloc: Global, s: &mut Solo<TallySession>, row: &Row) -> Result<bool, NoMemory> {
    let (tag, body, want) = *row;
    s.other(&Nothing::Nothing)?;
    let f = message(alloc, tag, body)?;
    let replies = s.take(alloc, &f)?;
    are(alloc, &replies, want)
}

#[test]
fn a_session_that_is_never_moved(rt: HostRuntime) -> Result<(), NoMemory> {
    let p = Params::new(rt.alloc());
    let mut s = Solo::begin(rt.alloc(), &p)?;
    let query = (
        b'Q',
        b"1\0".as_slice(),
        b"C\0\0\0\x0cTALLY 1\0Z\0\0\0\x05I".as_slice(),
    );
    assert_eq!(rt; alone(rt.alloc(), &mut s, &query), Ok(true));
    Ok(())
}
