use super::*;
use base64::engine::general_purpose::STANDARD;
use counted_desk::Desk;
use memory_links::ListClock;
use pgw_frames::{Bytes, NoMemory, Text};
use proxy_outside::{MemSink, MemSource, TenantId};
use revival_token::issue;
use std::alloc::Global;
use std::sync::Wait;
use std::test::*;
use tally_session::{TallySession, TallyStore};

const SECRET: &[u8] = b"sixteen bytes, or";

/// The messages of a login by password, and of a greeting.
const ASKED: &[u8] = b"R\0\0\0\x08\0\0\0\x03";

const GREETED: &[u8] = b"R\0\0\0\x08\0\0\0\0K\0\0\0\x0c\0\0\0\0\0\0\0\0Z\0\0\0\x05I";

/// The same, and a Query that was counted.
const COUNTED: &[u8] =
    b"R\0\0\0\x08\0\0\0\0K\0\0\0\x0c\0\0\0\0\0\0\0\0Z\0\0\0\x05IC\0\0\0\x0cTALLY 1\0Z\0\0\0\x05I";

fn settings(alloc: Global) -> Result<PodSettings, NoMemory> {
    let user = User {
        name: Text::of(alloc, "u")?,
        password: Text::of(alloc, "pw")?,
    };
    Ok(PodSettings {
        tenant: TenantId(7),
        secret: Bytes::of(alloc, SECRET)?,
        token_until: 100,
        users: Users::from_vec(vec![in alloc; user]?),
    })
}

/// A startup packet of these names and values in turn, and the bytes behind it.
fn packet(alloc: Global, texts: &[&str], behind: &[u8]) -> Result<Bytes, NoMemory> {
    let mut body = Bytes::new(alloc);
    for text in texts {
        body.extend(text.as_bytes())?;
        body.extend(b"\0")?;
    }
    body.extend(b"\0")?;
    let len = u32::try_from(body.len())
        .unwrap_or(0)
        .wrapping_add(8)
        .to_be_bytes();
    let mut bytes = Bytes::of(alloc, &len)?;
    bytes.extend(b"\0\x03\0\0")?;
    bytes.extend(body.as_slice())?;
    bytes.extend(behind)?;
    Ok(bytes)
}

/// What a connection writes, and how it ends.
fn served<R: Wait>(
    rt: &R,
    alloc: Global,
    desk_most: u32,
    sent: &[u8],
    fail: (u64, u64),
) -> Result<(PodEnd, Bytes), NoMemory> {
    let pod = settings(alloc)?;
    let source = MemSource::make(alloc, sent, 5, &[2], &[fail.0])?;
    let sink = MemSink::make(alloc, 3, &[fail.1])?;
    let (desk, seat) = Desk::<TallyStore>::make(alloc, desk_most)?;
    let mut port = DeskStore::make(&desk, seat);
    let mut clock = ListClock::make(alloc, &[99, 100])?;
    let served = serve_conn::<R, TallySession, _, _, _, _>(
        rt, alloc, &pod, source, sink, &mut port, &mut clock,
    );
    Ok((served.end, Bytes::of(alloc, served.client_out.contents())?))
}

#[test]
fn logins_and_messages(rt: HostRuntime) -> Result<(), Fail> {
    let alloc = rt.alloc();
    let refused: &[u8] = b"E\0\0\0\x29SFATAL\0VFATAL\0C28P01\0Mlogin refused\0\0";
    let strange: &[u8] = b"E\0\0\0\x27SFATAL\0VFATAL\0C08P01\0Mbad message\0\0";
    // Behind the startup packet of user u: what is sent; what is written behind the request for a password; how it ends.
    let rows: [(&[u8], &[u8], PodEnd); 11] = [
        (b"", b"", PodEnd::Closed),
        (b"p\0\0", b"", PodEnd::ClientCut),
        (b"p\0\0\0\x07pw\0", GREETED, PodEnd::Closed),
        (
            b"p\0\0\0\x07pw\0Q\0\0\0\x061\0X\0\0\0\x04S\0\0\0\x04",
            COUNTED,
            PodEnd::Closed,
        ),
        (b"p\0\0\0\x07pw\0Q\0\0\0\x061", GREETED, PodEnd::ClientCut),
        (b"p\0\0\0\x07pw\0Q\0\0\0\x03", GREETED, PodEnd::BadFrame(3)),
        (
            b"p\0\0\0\x07pv\0Q\0\0\0\x061\0",
            refused,
            PodEnd::AuthRefused,
        ),
        (b"p\0\0\0\x06pw", strange, PodEnd::AuthRefused),
        (b"p\0\0\0\x08p\0w\0", strange, PodEnd::AuthRefused),
        (b"X\0\0\0\x04", strange, PodEnd::AuthRefused),
        (b"p\0\0\0\0pw\0", b"", PodEnd::BadFrame(0)),
    ];
    for (sent, want, end) in rows {
        let bytes = packet(alloc, &["user", "u", "database", "d"], sent)?;
        let (seen, written) = served(&rt, alloc, 9, bytes.as_slice(), (99, 99))?;
        let mut all = Bytes::of(alloc, ASKED)?;
        all.extend(want)?;
        assert_eq!(rt; seen, end);
        assert_eq!(rt; written.as_slice(), all.as_slice());
    }
    Ok(())
}

#[test]
fn first_packets(rt: HostRuntime) -> Result<(), Fail> {
    let alloc = rt.alloc();
    // What is sent; what is written; how it ends.
    let rows: [(&[u8], &[u8], PodEnd); 10] = [
        (b"", b"", PodEnd::Closed),
        (b"\0\0", b"", PodEnd::ClientCut),
        (b"\0\0\0\x08\x04\xd2\x16\x2f", b"N", PodEnd::Closed),
        // Two requests for encryption, a CancelRequest, and a byte behind it.
        (
            b"\0\0\0\x08\x04\xd2\x16\x2f\0\0\0\x08\x04\xd2\x16\x30\0\0\0\x10\x04\xd2\x16\x2e\0\0\0\x05\0\0\0\x09x",
            b"NN",
            PodEnd::Closed,
        ),
        // Three requests for encryption.
        (
            b"\0\0\0\x08\x04\xd2\x16\x2f\0\0\0\x08\x04\xd2\x16\x30\0\0\0\x08\x04\xd2\x16\x2f",
            b"NN",
            PodEnd::BadStartup,
        ),
        (b"\0\0\0\x07", b"", PodEnd::BadStartup),
        (b"\0\xb5\x94\xe1", b"", PodEnd::BadStartup),
        (b"\0\0\0\x09\0\x02\0\0\0", b"", PodEnd::BadStartup),
        (b"\0\0\0\x09\0\x03\0\0\0", b"", PodEnd::BadStartup),
        (b"\0\0\0\x0e\0\x03\0\0user\0\0", b"", PodEnd::BadStartup),
    ];
    for (sent, want, end) in rows {
        let (seen, written) = served(&rt, alloc, 9, sent, (99, 99))?;
        assert_eq!(rt; written.as_slice(), want);
        assert_eq!(rt; seen, end);
    }
    let reserved = packet(alloc, &["user", "u", "crdb:session_token_base64", ""], b"")?;
    let (seen, _) = served(&rt, alloc, 9, reserved.as_slice(), (99, 99))?;
    assert_eq!(rt; seen, PodEnd::BadStartup);
    Ok(())
}

#[test]
fn sessions_that_are_revived(rt: HostRuntime) -> Result<(), Fail> {
    let alloc = rt.alloc();
    let refused: &[u8] = b"E\0\0\0\x2dSFATAL\0VFATAL\0C28000\0Mbad revival token\0\0";
    // The moment is 99. A token's user and its expiry; what is written; how it ends.
    let rows = [
        ("u", 100, GREETED, PodEnd::Closed),
        ("u", 99, refused, PodEnd::AuthRefused),
        ("v", 100, refused, PodEnd::AuthRefused),
    ];
    for (user, until, want, end) in rows {
        let token = issue(alloc, SECRET, user, TenantId(7), until)?;
        let text = STANDARD.encode(alloc, token.as_slice())?;
        let sent = packet(
            alloc,
            &[
                "user",
                "u",
                "crdb:session_revival_token_base64",
                text.as_str(),
            ],
            b"",
        )?;
        let (seen, written) = served(&rt, alloc, 9, sent.as_slice(), (99, 99))?;
        assert_eq!(rt; seen, end);
        assert_eq!(rt; written.as_slice(), want);
    }
    Ok(())
}

#[test]
fn halves_that_fail(rt: HostRuntime) -> Result<(), Fail> {
    let alloc = rt.alloc();
    let sent = packet(alloc, &["user", "u"], b"p\0\0\0\x07pw\0")?;
    let (end, written) = served(&rt, alloc, 9, sent.as_slice(), (3, 99))?;
    assert_eq!(rt; end, PodEnd::ReadFault);
    assert!(rt; written.is_empty());
    let (end, written) = served(&rt, alloc, 9, sent.as_slice(), (99, 5))?;
    assert_eq!(rt; end, PodEnd::WriteFault);
    assert_eq!(rt;
        written.as_slice(),
        b"R\0\0\0\x08\0\0\0\x03R\0\0".as_slice()
    );
    Ok(())
}
