use super::*;
use pgw_messages::PodKey;
use proxy_outside::{Addr, ClientKey, Place, PodNo, SessionNo};
use std::test::*;

/// 10.0.0.9
const CLIENT: Addr = Addr::V4(0x0a00_0009);

/// 10.0.0.8
const OTHER: Addr = Addr::V4(0x0a00_0008);

const WORD: u64 = 0xaabb_ccdd_0011_2233;

fn place(number: u32) -> Place {
    Place {
        pod: PodNo(number),
        addr: Addr::V4(0x0a00_0001),
        port: 26_257,
    }
}

fn pod_key(process: u32, secret: u32) -> PodKey {
    PodKey { process, secret }
}

#[test]
fn the_session_at_its_last_pod(rt: HostRuntime) -> Result<(), Fail> {
    let mut keys = Keys::new(rt.alloc());
    let key = keys.give(SessionNo(5), CLIENT, WORD)?;
    assert_eq!(rt;
        key,
        ClientKey {
            process: 5,
            secret: 1_122_867,
        }
    );
    assert_eq!(rt; keys.find(key, &CLIENT), None);
    for (number, process, secret) in [(1, 70, 71), (2, 80, 81)] {
        let target = (place(number), pod_key(process, secret));
        assert_eq!(rt; keys.bind(SessionNo(5), target.0, target.1), true);
        assert_eq!(rt; keys.find(key, &CLIENT), Some(target), "at {number}");
    }
    Ok(())
}

#[test]
fn who_shows_another_key(rt: HostRuntime) -> Result<(), Fail> {
    let mut keys = Keys::new(rt.alloc());
    let key = keys.give(SessionNo(5), CLIENT, WORD)?;
    assert_eq!(rt; keys.bind(SessionNo(5), place(1), pod_key(70, 71)), true);
    // A process, a secret, and an address.
    let rows = [
        (5, 1_122_867, OTHER),
        (5, 1_122_867, Addr::V6(0x0a00_0009)),
        (5, 0, CLIENT),
        (5, 0xaabb_ccdd, CLIENT),
        (6, 1_122_867, CLIENT),
        (0, 1_122_867, CLIENT),
    ];
    for (process, secret, addr) in rows {
        let shown = ClientKey { process, secret };
        assert_eq!(rt; keys.find(shown, &addr), None, "at {shown:?}");
    }
    assert_eq!(rt; keys.find(key, &CLIENT).is_some(), true);
    Ok(())
}

#[test]
fn keys_come_and_go(rt: HostRuntime) -> Result<(), Fail> {
    let mut keys = Keys::new(rt.alloc());
    assert_eq!(rt; keys.bind(SessionNo(5), place(1), pod_key(70, 71)), false);
    let first = keys.give(SessionNo(5), CLIENT, WORD)?;
    assert_eq!(rt; keys.bind(SessionNo(5), place(1), pod_key(70, 71)), true);
    let second = keys.give(SessionNo(5), OTHER, 9)?;
    assert_eq!(rt; keys.find(first, &CLIENT), None);
    assert_eq!(rt; keys.find(second, &OTHER), None);
    assert_eq!(rt; keys.bind(SessionNo(5), place(1), pod_key(70, 71)), true);
    assert_eq!(rt; keys.find(second, &OTHER).is_some(), true);
    keys.drop_key(SessionNo(5));
    assert_eq!(rt; keys.find(second, &OTHER), None);
    assert_eq!(rt; keys.bind(SessionNo(5), place(1), pod_key(70, 71)), false);
    keys.drop_key(SessionNo(5));
    Ok(())
}
