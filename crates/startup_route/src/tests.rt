mod rejections;

use super::*;
use std::alloc::Global;
use std::process::Abort;
use std::test::*;

/// Two requests for encryption, as libpq writes them: GSSENCRequest and SSLRequest.
const GSS: &[u8] = b"\0\0\0\x08\x04\xd2\x16\x30";

const SSL: &[u8] = b"\0\0\0\x08\x04\xd2\x16\x2f";

/// What psql 15.18 sent to a listener behind its SSLRequest, with `dbname=happy-koala-7.defaultdb` and
/// the client encoding set to UTF8.
const PSQL: &[u8] = b"\0\0\0\x60\0\x03\0\0user\0koala\0database\0happy-koala-7.defaultdb\0\
application_name\0psql\0client_encoding\0UTF8\0\0";

/// The same with `dbname=defaultdb`, `options='--cluster=happy-koala-7 -c geqo=off'` and no encoding.
const PSQL_OPTIONS: &[u8] = b"\0\0\0\x69\0\x03\0\0user\0koala\0database\0defaultdb\0\
options\0--cluster=happy-koala-7 -c geqo=off\0application_name\0psql\0\0";

fn fault_name(alloc: Global, fault: &DoorFault) -> Result<String, Fail> {
    Ok(match fault {
        DoorFault::TooLong(len) => format!(in alloc; "TooLong {len}")?,
        DoorFault::BadLength(len) => format!(in alloc; "BadLength {len}")?,
        DoorFault::BadVersion(code) => format!(in alloc; "BadVersion {code}")?,
        DoorFault::TooManyRequests => format!(in alloc; "TooManyRequests")?,
        DoorFault::BadPairs => format!(in alloc; "BadPairs")?,
        DoorFault::ReservedParam(name) => format!(in alloc; "ReservedParam {}", name.as_str())?,
        DoorFault::NoUser => format!(in alloc; "NoUser")?,
        DoorFault::TwoClusters => format!(in alloc; "TwoClusters")?,
        DoorFault::NoCluster => format!(in alloc; "NoCluster")?,
        DoorFault::BadTenant(name) => format!(in alloc; "BadTenant {}", name.as_str())?,
    })
}

fn told(alloc: Global, route: &Route) -> Result<String, Fail> {
    let mut text = format!(in alloc; "{}", route.tenant.0)?;
    for pair in route.params.as_slice() {
        let one = format!(in alloc; " {}={}", pair.name.as_str(), pair.value.as_str())?;
        text.push_str(one.as_str())?;
    }
    Ok(text)
}

fn answer(alloc: Global, step: &DoorStep) -> Result<String, Fail> {
    Ok(match step {
        DoorStep::Need => String::new(alloc),
        DoorStep::Say => format!(in alloc; "N ")?,
        DoorStep::Ready(route) => told(alloc, route)?,
        DoorStep::Cancel(key) => format!(in alloc; "cancel {} {}", key.process, key.secret)?,
        DoorStep::Refused(fault) => fault_name(alloc, fault)?,
    })
}

/// What a door answered, how many bytes it took, and how many it wanted before each piece and at the
/// end.
#[derive(Drop)]
struct Heard {
    text: String,
    taken: usize,
    wants: Vec<usize>,
}

/// What a door answers to these bytes in pieces of at most so many.
fn answers(alloc: Global, bytes: &[u8], most: usize) -> Result<Heard, Fail> {
    let mut door = Door::new(alloc);
    let mut text = String::new(alloc);
    let mut wants = Vec::new(alloc);
    let mut rest = bytes;
    while !rest.is_empty() {
        wants.push(door.want())?;
        let count = door.want().min(most).min(rest.len());
        if count == 0 {
            break;
        }
        let (piece, behind) = rest.split_at(count);
        let step = door.feed(piece)?;
        text.push_str(answer(alloc, &step)?.as_str())?;
        rest = behind;
    }
    Ok(Heard {
        text,
        taken: bytes.len() - rest.len(),
        wants,
    })
}

/// Feeds the bytes whole and one by one, with more behind them.
fn check(
    rt: &impl Abort,
    alloc: Global,
    bytes: &[u8],
    taken: usize,
    want: &str,
) -> Result<(), Fail> {
    let mut all = Vec::from_slice(alloc, bytes)?;
    all.extend_from_slice(b"p\0\0\0\x08abc\0")?;
    for most in [usize::MAX, 1, 5] {
        let heard = answers(alloc, &all, most)?;
        assert_eq!(rt; heard.text.as_str(), want);
        assert_eq!(rt; heard.taken, taken, "at {want}");
    }
    Ok(())
}

#[test]
fn as_psql_does_it(rt: HostRuntime) -> Result<(), Fail> {
    let mut bytes = Vec::from_slice(rt.alloc(), GSS)?;
    bytes.extend_from_slice(SSL)?;
    bytes.extend_from_slice(PSQL)?;
    let want = "N N 7 user=koala database=defaultdb application_name=psql client_encoding=UTF8";
    check(&rt, rt.alloc(), &bytes, 112, want)?;
    let mut bytes = Vec::from_slice(rt.alloc(), SSL)?;
    bytes.extend_from_slice(PSQL_OPTIONS)?;
    let want = "N 7 user=koala database=defaultdb options=-c geqo=off application_name=psql";
    check(&rt, rt.alloc(), &bytes, 113, want)
}

#[test]
fn what_a_door_wants(rt: HostRuntime) -> Result<(), Fail> {
    // The length, the code, and the rest; none behind a route, a key or a fault.
    let rows: [(&[&[u8]], &[usize]); 6] = [
        (&[GSS, SSL, PSQL, b"p"], &[4, 4, 4, 4, 4, 4, 88, 0]),
        (&[SSL, SSL, SSL, b"p"], &[4, 4, 4, 4, 4, 4, 0]),
        (
            &[b"\0\0\0\x10\x04\xd2\x16\x2e\0\0\0\x07\x01\x02\x03\x04p"],
            &[4, 4, 8, 0],
        ),
        (&[b"\0\0\x27\x11p"], &[4, 0]),
        (&[b"\0\0\0\x07p"], &[4, 0]),
        (&[b"\0\0\x27\x10\0\x03\0\x02p"], &[4, 4, 0]),
    ];
    for (packets, wants) in rows {
        let mut bytes = Vec::new(rt.alloc());
        for packet in packets {
            bytes.extend_from_slice(packet)?;
        }
        let heard = answers(rt.alloc(), &bytes, usize::MAX)?;
        assert_eq!(rt; heard.wants.as_slice(), wants);
    }
    Ok(())
}

#[test]
fn packets_that_are_known_by_their_head(rt: HostRuntime) -> Result<(), Fail> {
    let rows: [(&[u8], usize, &str); 12] = [
        (b"\0\0\x27\x11", 4, "TooLong 10001"),
        (b"\xff\xff\xff\xff", 4, "TooLong 4294967295"),
        (b"\0\0\0\0", 4, "BadLength 0"),
        (b"\0\0\0\x07", 4, "BadLength 7"),
        (b"\0\0\0\x08\0\x03\0\0", 8, "BadLength 8"),
        (b"\0\0\0\x09\x04\xd2\x16\x2f", 8, "BadLength 9"),
        (b"\0\0\0\x09\x04\xd2\x16\x30", 8, "BadLength 9"),
        (b"\0\0\0\x0f\x04\xd2\x16\x2e", 8, "BadLength 15"),
        (b"\0\0\0\x11\x04\xd2\x16\x2e", 8, "BadLength 17"),
        (b"\0\0\x27\x10\0\x03\0\x02", 8, "BadVersion 196610"),
        (
            b"\0\0\0\x08\x04\xd2\x16\x30\0\0\0\x08\x04\xd2\x16\x2f\0\0\0\x08\x04\xd2\x16\x2f",
            24,
            "N N TooManyRequests",
        ),
        (
            b"\0\0\0\x10\x04\xd2\x16\x2e\0\0\0\x07\x01\x02\x03\x04",
            16,
            "cancel 7 16909060",
        ),
    ];
    for (bytes, taken, want) in rows {
        check(&rt, rt.alloc(), bytes, taken, want)?;
    }
    Ok(())
}

/// A startup packet with this body.
fn packet(alloc: Global, body: &[u8]) -> Result<Vec<u8>, Fail> {
    let len = u32::try_from(body.len()).unwrap_or(0).saturating_add(8);
    let mut bytes = Vec::from_slice(alloc, &len.to_be_bytes())?;
    bytes.extend_from_slice(b"\0\x03\0\0")?;
    bytes.extend_from_slice(body)?;
    Ok(bytes)
}

#[test]
fn the_longest_packet(rt: HostRuntime) -> Result<(), Fail> {
    let mut body = Vec::from_slice(rt.alloc(), b"user\0koala\0database\0x-7.d\0name\0")?;
    for _ in 0..9_959 {
        body.push(b'a')?;
    }
    body.extend_from_slice(b"\0\0")?;
    let bytes = packet(rt.alloc(), &body)?;
    assert_eq!(rt; bytes.len(), 10_000);
    for most in [usize::MAX, 1] {
        let heard = answers(rt.alloc(), &bytes, most)?;
        assert!(rt; heard.text.starts_with("7 user=koala database=d name=aaa"));
        assert_eq!(rt; heard.taken, 10_000);
    }
    Ok(())
}

#[test]
fn routes(rt: HostRuntime) -> Result<(), Fail> {
    let rows: [(&[u8], &str); 8] = [
        (
            b"user\0koala\0options\0-c a=b --cluster=x-9\0database\0db\0\0",
            "9 user=koala options=-c a=b database=db",
        ),
        (
            b"user\0koala\0options\0 --cluster=k-7  --cluster=k-7 \0database\0k-7.d.e\0\0",
            "7 user=koala database=d.e",
        ),
        (
            b"options\0--cluster=x-7\0user\0koala\0\0",
            "7 user=koala database=koala",
        ),
        (
            b"database\0x-7.\0user\0koala\0\0",
            "7 database=koala user=koala",
        ),
        (
            b"user\0a\0database\0x--1.d\0user\0koala\0\0",
            "1 user=koala database=d",
        ),
        (
            b"user\0koala\0options\0a  b --cluster=x-4294967295\0\0",
            "4294967295 user=koala options=a b database=koala",
        ),
        (
            b"user\0koala\0options\0  \0database\0x-7.d\0\0",
            "7 user=koala database=d",
        ),
        (
            b"user\0koala\0options\0--Cluster=x-8\0database\0x-7.d\0\0",
            "7 user=koala options=--Cluster=x-8 database=d",
        ),
    ];
    for (body, want) in rows {
        let bytes = packet(rt.alloc(), body)?;
        check(&rt, rt.alloc(), &bytes, bytes.len(), want)?;
    }
    Ok(())
}

#[test]
fn bodies_that_are_refused(rt: HostRuntime) -> Result<(), Fail> {
    let rows: [(&[u8], &str); 21] = [
        // A packet of nine bytes has no pairs, and is whole.
        (b"\0", "NoUser"),
        (b"x", "BadPairs"),
        (b"user\0koala\0", "BadPairs"),
        (b"user\0koala\0\0\0", "BadPairs"),
        (b"user\0koala", "BadPairs"),
        (b"user\0\xff\0\0", "BadPairs"),
        (b"crdb:a\0\0", "BadPairs"),
        (b"a\0b\0crdb:a\0b\0crdb:c\0d\0\0", "ReservedParam crdb:a"),
        (b"database\0x-7.d\0\0", "NoUser"),
        (b"user\0\0database\0d\0\0", "NoUser"),
        (
            b"user\0koala\0options\0--cluster=happy-koala-7\0database\0sad-koala-8.db\0\0",
            "TwoClusters",
        ),
        (
            b"user\0koala\0options\0--cluster=a-7 --cluster=b-7\0\0",
            "TwoClusters",
        ),
        (b"user\0koala\0\0", "NoCluster"),
        (
            b"user\0koala\0options\0-c a=b\0database\0x-7\0\0",
            "NoCluster",
        ),
        (b"user\0koala\0database\0x-07.db\0\0", "BadTenant x-07"),
        (b"user\0koala\0database\0x-0.db\0\0", "BadTenant x-0"),
        (b"user\0koala\0database\0-7.db\0\0", "BadTenant -7"),
        (b"user\0koala\0database\0x7.db\0\0", "BadTenant x7"),
        (b"user\0koala\0database\0x-+7.db\0\0", "BadTenant x-+7"),
        (b"user\0koala\0database\0.x-7\0\0", "BadTenant "),
        (
            b"user\0koala\0options\0--cluster=x-4294967296\0\0",
            "BadTenant x-4294967296",
        ),
    ];
    for (body, want) in rows {
        let bytes = packet(rt.alloc(), body)?;
        check(&rt, rt.alloc(), &bytes, bytes.len(), want)?;
    }
    Ok(())
}
