use super::*;
use pgw_frames::NoMemory;
use proxy_outside::{ClientKey, MemSink, MemSource, Source, TenantId, Took};
use startup_route::DoorFault;
use std::test::*;

/// What an entry says.
#[derive(Clone, Copy, Debug, PartialEq, Eq)]
enum Told {
    Tenant(TenantId),
    Key(ClientKey),
    BadLength(u32),
    OtherFault,
    Cut(DoorCut),
}

fn seen(entry: &Entry) -> Told {
    match entry {
        Entry::Session(route, _) => Told::Tenant(route.tenant),
        Entry::Cancel(key) => Told::Key(*key),
        Entry::Refused(DoorFault::BadLength(n)) => Told::BadLength(*n),
        Entry::Refused(_) => Told::OtherFault,
        Entry::Cut(cut) => Told::Cut(*cut),
    }
}

/// A startup packet that names tenant 7, and a byte behind it.
const STARTUP: &[u8] = b"\0\0\0\x2e\0\x03\0\0user\0koala\0database\0happy-koala-7.db\0\0Q";

/// A request for encryption by TLS, and then the same.
const ENCRYPTED: &[u8] =
    b"\0\0\0\x08\x04\xd2\x16\x2f\0\0\0\x2e\0\x03\0\0user\0koala\0database\0happy-koala-7.db\0\0Q";

const CANCEL: &[u8] = b"\0\0\0\x10\x04\xd2\x16\x2e\0\0\0\x05\0\0\0\x09Q";

#[test]
fn what_clients_come_for(rt: HostRuntime) -> Result<(), NoMemory> {
    let tenant = Told::Tenant(TenantId(7));
    let key = Told::Key(ClientKey {
        process: 5,
        secret: 9,
    });
    // The packets; the reads that are idle and that fail, the write that fails, all counted from 1; what is answered and told, and
    // whether the byte behind them was left.
    let rows: [(&[u8], &[u64], &[u64], u64, &[u8], Told, bool); 8] = [
        (STARTUP, &[], &[], 9, b"", tenant, true),
        (ENCRYPTED, &[2], &[], 9, b"N", tenant, true),
        (CANCEL, &[], &[], 9, b"", key, true),
        (b"\0\0\0\x07Q", &[], &[], 9, b"", Told::BadLength(7), true),
        (
            b"\0\0\0\x2e\0\x03",
            &[],
            &[],
            9,
            b"",
            Told::Cut(DoorCut::Ended),
            false,
        ),
        (
            ENCRYPTED,
            &[],
            &[4],
            9,
            b"N",
            Told::Cut(DoorCut::ReadFault),
            false,
        ),
        (
            ENCRYPTED,
            &[],
            &[],
            1,
            b"",
            Told::Cut(DoorCut::WriteFault),
            false,
        ),
        (
            STARTUP,
            &[1, 3],
            &[],
            9,
            b"",
            Told::Cut(DoorCut::Late(2)),
            false,
        ),
    ];
    for (packets, idle, failing, write, said, want, left) in rows {
        let mut source = MemSource::make(rt.alloc(), packets, 5, idle, failing)?;
        let mut sink = MemSink::make(rt.alloc(), 5, &[write])?;
        let entry = enter(&rt, rt.alloc(), &mut source, &mut sink, 2);
        assert_eq!(rt; seen(&entry), want);
        assert_eq!(rt; sink.contents(), said);
        let mut buf = [0u8; 1];
        if left {
            assert_eq!(rt; source.read(&mut buf), Took::Got(1));
            assert_eq!(rt; buf, *b"Q");
        }
    }
    Ok(())
}
