//! What is sent.

use super::*;

#[test]
fn the_transfer_query(rt: HostRuntime) -> Result<(), Fail> {
    let query = text_after(rt.alloc(), begun(rt.alloc())?, &[])?;
    let want = b"Q\0\0\0\x40SHOW TRANSFER STATE WITH '0000000000000001000000000000000a'\0";
    assert_eq!(rt; query.as_slice(), want.as_slice());
    Ok(())
}

#[test]
fn the_startup_packet(rt: HostRuntime) -> Result<(), Fail> {
    let packet = text_after(rt.alloc(), up_to_dial(rt.alloc())?, &[Dial(true)])?;
    let want = b"\0\0\0\x37\0\x03\0\0user\0u\0crdb:session_revival_token_base64\0dG9r\0\0";
    assert_eq!(rt; packet.as_slice(), want.as_slice());
    Ok(())
}

#[test]
fn the_restore_query(rt: HostRuntime) -> Result<(), Fail> {
    let ready = [Step::Frame(b'Z', b"I")];
    let restore = text_after(rt.alloc(), up_to_greeting(rt.alloc())?, &ready)?;
    let want = b"Q\0\0\0\x46SELECT crdb_internal.deserialize_session(decode('AQ==','base64'))\0";
    assert_eq!(rt; restore.as_slice(), want.as_slice());
    Ok(())
}
