use crate::{MsgFault, Params, read_params, startup_bytes};
use pgw_frames::NoMemory;
use std::alloc::Global;
use std::test::*;

/// Parameters that are put one after the other.
fn params(alloc: Global, rows: &[(&str, &str)]) -> Result<Params, NoMemory> {
    let mut p = Params::new(alloc);
    for (name, value) in rows {
        p.put(name, value)?;
    }
    Ok(p)
}

/// Whether this pair stands at this place.
fn has(p: &Params, place: usize, name: &str, value: &str) -> bool {
    match p.get(place) {
        Some(pair) => pair.name.as_str() == name && pair.value.as_str() == value,
        None => false,
    }
}

#[test]
fn a_later_value_keeps_the_first_place(rt: HostRuntime) -> Result<(), NoMemory> {
    let rows = [("user", "a"), ("database", "d"), ("user", "b")];
    let p = params(rt.alloc(), &rows)?;
    assert!(rt; p.len() == 2 && !p.is_empty());
    assert!(rt; has(&p, 0, "user", "b") && has(&p, 1, "database", "d"));
    assert!(rt; p.value("database") == Some("d") && p.value("options").is_none());
    Ok(())
}

#[test]
fn the_startup_packet(rt: HostRuntime) -> Result<(), NoMemory> {
    let mut p = Params::new(rt.alloc());
    p.put("user", "u")?;
    p.put("database", "d")?;
    let packet = startup_bytes(rt.alloc(), &p)?;
    let want = b"\0\0\0\x1b\0\x03\0\0user\0u\0database\0d\0\0";
    assert_eq!(rt; packet.as_slice(), want.as_slice());
    Ok(())
}

#[test]
fn parameters_with_a_name_twice(rt: HostRuntime) -> Result<(), MsgFault> {
    let body = b"user\0a\0database\0d\0user\0b\0database\0e\0\0";
    let p = read_params(rt.alloc(), body)?;
    assert!(rt; p.len() == 2);
    assert!(rt; has(&p, 0, "user", "b") && has(&p, 1, "database", "e"));
    Ok(())
}

#[test]
fn faults_of_parameters(rt: HostRuntime) {
    let rows: [(&[u8], Option<MsgFault>); 11] = [
        (b"\0", None),
        (b"user\0\0\0", None),
        (b"", Some(MsgFault::Short)),
        (b"user\0a\0", Some(MsgFault::Short)),
        (b"user\0a", Some(MsgFault::Short)),
        (b"user\0\0", Some(MsgFault::Short)),
        (b"user\0a\0\0\0", Some(MsgFault::Trailing)),
        (b"user\0\xff\0\0", Some(MsgFault::NotText)),
        (b"\xff\0a\0\0", Some(MsgFault::NotText)),
        // With a zero byte inside, `b` begins a name.
        (b"user\0a\0b\0\0", Some(MsgFault::Short)),
        (b"user\0a\0b\0c\0\0", None),
    ];
    for (body, want) in rows {
        assert_eq!(rt; read_params(rt.alloc(), body).err(), want, "{body:?}");
    }
}
