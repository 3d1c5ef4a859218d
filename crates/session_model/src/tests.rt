use super::*;
use pgw_frames::{Bytes, Frames, MOST_BODY, Text, write_frame};
use std::alloc::Global;
use std::process::Abort;
use std::test::*;

const KEY: TransferKey = TransferKey {
    high: 0x0001020304050607,
    low: 0x08090a0b0c0d0e0f,
};

/// The frames as they go out.
fn wire(rt: &impl Abort, alloc: Global, frames: &Frames) -> Result<Bytes, Fail> {
    let mut out = Bytes::new(alloc);
    for f in frames.as_slice() {
        assert!(rt; f.body.len() <= MOST_BODY);
        write_frame(f, &mut out)?;
    }
    Ok(out)
}

#[test]
fn texts_of_a_transfer(rt: HostRuntime) -> Result<(), Fail> {
    let alloc = rt.alloc();
    let ask = "SHOW TRANSFER STATE WITH '000102030405060708090a0b0c0d0e0f'";
    assert_eq!(rt; transfer_text(alloc, &KEY)?.as_str(), ask);
    let give = "SELECT crdb_internal.deserialize_session(decode('AAAAAAAAAAE=','base64'))";
    let text = restore_text(alloc, b"\0\0\0\0\0\0\0\x01")?;
    assert_eq!(rt; text.as_str(), give);
    Ok(())
}

#[test]
fn replies_of_a_transfer(rt: HostRuntime) -> Result<(), Fail> {
    let alloc = rt.alloc();
    let why = Dump::Not(Text::of(alloc, "no")?);
    let replies = transfer_reply(alloc, &KEY, &why, "dG9r", b'T')?;
    let want =
        b"T\0\0\0\x93\0\x04error\0\0\0\0\0\0\0\0\0\0\x19\xff\xff\xff\xff\xff\xff\0\0session_state_base64\0\0\0\0\0\0\0\0\0\0\x19\xff\xff\xff\xff\xff\xff\0\0session_revival_token_base64\0\0\0\0\0\0\0\0\0\0\x19\xff\xff\xff\xff\xff\xff\0\0transfer_key\0\0\0\0\0\0\0\0\0\0\x19\xff\xff\xff\xff\xff\xff\0\0D\0\0\0\x38\0\x04\0\0\0\x02no\0\0\0\0\0\0\0\0\0\0\0\x20000102030405060708090a0b0c0d0e0fC\0\0\0\x1aSHOW TRANSFER STATE 1\0Z\0\0\0\x05T";
    assert_eq!(rt; wire(&rt, alloc, &replies)?.as_slice(), want.as_slice());
    let blob = Dump::Blob(Bytes::of(alloc, b"\x01")?);
    let replies = digits_reply(alloc, b"00", &blob, "dG9r", b'I')?;
    let row = b"\0\x04\0\0\0\0\0\0\0\x04AQ==\0\0\0\x04dG9r\0\0\0\x0200";
    assert_eq!(rt;
        replies.get(1).map(|f| f.body.as_slice() == row.as_slice()),
        Some(true)
    );
    Ok(())
}

#[test]
fn reply_of_a_restore(rt: HostRuntime) -> Result<(), Fail> {
    let alloc = rt.alloc();
    let want =
        b"T\0\0\0\x3a\0\x01crdb_internal.deserialize_session\0\0\0\0\0\0\0\0\0\0\x10\0\x01\xff\xff\xff\xff\0\0D\0\0\0\x0b\0\x01\0\0\0\x01tC\0\0\0\x0dSELECT 1\0Z\0\0\0\x05I";
    let replies = restore_reply(alloc)?;
    assert_eq!(rt; wire(&rt, alloc, &replies)?.as_slice(), want.as_slice());
    Ok(())
}
