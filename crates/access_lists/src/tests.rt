use super::*;
use pgw_frames::{NoMemory, Text};
use proxy_outside::{Addr, TenantId};
use std::alloc::Global;
use std::test::*;

/// 10.1.2.3
const CLIENT: Addr = Addr::V4(0x0a01_0203);

#[test]
fn addresses_of_the_standard(rt: HostRuntime) {
    // RFC 4291, 2.2: each address in full and with `::`.
    let rows = [
        (
            "2001:DB8:0:0:8:800:200C:417A",
            "2001:DB8::8:800:200C:417A",
            0x2001_0db8_0000_0000_0008_0800_200c_417a,
        ),
        (
            "FF01:0:0:0:0:0:0:101",
            "FF01::101",
            0xff01_0000_0000_0000_0000_0000_0000_0101,
        ),
        ("0:0:0:0:0:0:0:1", "::1", 1),
        ("0:0:0:0:0:0:0:0", "::", 0),
    ];
    for (full, short, bits) in rows {
        assert_eq!(rt; read_addr(full), Ok(Addr::V6(bits)), "at {full}");
        assert_eq!(rt; read_addr(short), Ok(Addr::V6(bits)), "at {short}");
    }
    assert_eq!(rt; read_addr("10.1.2.3"), Ok(CLIENT));
    assert_eq!(rt; read_addr("255.255.255.255"), Ok(Addr::V4(0xffff_ffff)));
    assert_eq!(rt; read_addr("0001::00ff"), Ok(Addr::V6(0x0001 << 112 | 0xff)));
    assert_eq!(rt; read_addr("::ffff:a01:203"), Ok(Addr::V6(0xffff_0a01_0203)));
    assert_eq!(rt; read_addr("1:2:3:4:5:6:7::"), read_addr("1:2:3:4:5:6:7:0"));
}

#[test]
fn texts_that_are_no_address(rt: HostRuntime) {
    let rows = [
        "",
        "10.0.0",
        "10.0.0.0.0",
        "10.0.0.01",
        "10.0..1",
        "256.0.0.1",
        "10.0.0.1 ",
        "0x0a.0.0.1",
        ":",
        ":::",
        "2001:db8:::1",
        "1::2::3",
        "1:2:3:4:5:6:7",
        "1:2:3:4:5:6:7:8:9",
        "1:2:3:4:5:6:7::8",
        "12345::",
        "00001::",
        "::00001",
        "1:2:3:4:5:6:7:",
        ":2:3:4:5:6:7:8",
        "1:2:3:4:5:6:7:8::",
        "10.0.0.",
        ".10.0.0",
        "00.0.0.0",
        "g::",
        "::ffff:10.1.2.3",
        "[::1]",
        "fe80::1%1",
    ];
    for text in rows {
        assert_eq!(rt; read_addr(text), Err(NetFault::BadAddress), "at {text}");
    }
}

#[test]
fn networks(rt: HostRuntime) {
    let rows = [
        ("10.0.0.0/8", "10.255.255.255", "11.0.0.0"),
        ("10.255.0.1/8", "10.1.2.3", "9.255.255.255"),
        ("10.1.2.3", "10.1.2.3", "10.1.2.2"),
        ("10.1.2.2/31", "10.1.2.3", "10.1.2.4"),
        ("0.0.0.0/0", "255.255.255.255", "::"),
        ("::/0", "ffff::", "0.0.0.0"),
        ("2001:db8::/32", "2001:db8::1", "2001:db9::"),
        ("::ffff:0:0/96", "::ffff:a01:203", "10.1.2.3"),
        ("::1/128", "::1", "::"),
        ("::1", "::1", "::2"),
        ("10.1.2.3/32", "10.1.2.3", "10.1.2.2"),
    ];
    for (text, inside, outside) in rows {
        let (Ok(net), Ok(inside), Ok(outside)) = (
            read_net(text),
            read_addr(inside),
            read_addr(outside),
        ) else {
            panic!(rt; "at {text}");
        };
        assert!(rt; net.has(&inside), "at {text}");
        assert!(rt; !net.has(&outside), "at {text}");
    }
}

#[test]
fn texts_that_are_no_network(rt: HostRuntime) {
    let rows = [
        ("2001:db8:::1", NetFault::BadAddress),
        ("10.0.0.01", NetFault::BadAddress),
        ("10.0.0.01/33", NetFault::BadAddress),
        ("1:2:3:4:5:6:7:8:9/8", NetFault::BadAddress),
        ("", NetFault::BadAddress),
        ("/", NetFault::BadAddress),
        ("/8", NetFault::BadAddress),
        ("10.0.0.0/33", NetFault::BadPrefix),
        ("::/129", NetFault::BadPrefix),
        ("::/256", NetFault::BadPrefix),
        ("::/0129", NetFault::BadPrefix),
        ("10.0.0.0/00", NetFault::BadPrefix),
        ("10.0.0.0/", NetFault::BadPrefix),
        ("10.0.0.0/08", NetFault::BadPrefix),
        ("10.0.0.0/+8", NetFault::BadPrefix),
        ("10.0.0.0/8/8", NetFault::BadPrefix),
        ("10.0.0.0/255.0.0.0", NetFault::BadPrefix),
    ];
    for (text, fault) in rows {
        assert_eq!(rt; read_net(text), Err(fault), "at {text}");
    }
}

#[test]
fn a_prefix_past_the_end(rt: HostRuntime) {
    let net = Net {
        addr: CLIENT,
        prefix: 255,
    };
    assert!(rt; net.has(&CLIENT));
    assert!(rt; !net.has(&Addr::V4(0x0a01_0202)));
}

fn deny(alloc: Global, who: Who, until: Option<u64>) -> Result<Deny, NoMemory> {
    Ok(Deny {
        who,
        until,
        reason: Text::of(alloc, "abuse")?,
    })
}

/// 10.0.0.0/8
const TEN: Net = Net {
    addr: Addr::V4(0x0a00_0000),
    prefix: 8,
};

/// 192.168.0.0/16
const HOME: Net = Net {
    addr: Addr::V4(0xc0a8_0000),
    prefix: 16,
};

/// A tenant's allow entry.
type Entry = (TenantId, Option<Net>);

/// A client's address and tenant, and the moment.
type Client = (Addr, TenantId, u64);

/// Lists to which these entries were added.
fn added(
    alloc: Global,
    denies: &[(Who, Option<u64>)],
    allows: &[Entry],
) -> Result<Lists, NoMemory> {
    let mut lists = Lists::new(alloc);
    for (who, until) in denies {
        lists.add_deny(deny(alloc, *who, *until)?)?;
    }
    for (tenant, net) in allows {
        lists.add_allow(*tenant, *net)?;
    }
    Ok(lists)
}

/// The verdicts of these entries and of a copy.
fn judged(
    alloc: Global,
    denies: &[(Who, Option<u64>)],
    allows: &[Entry],
    client: Client,
) -> Result<[Verdict; 2], NoMemory> {
    let (addr, tenant, now) = client;
    let lists = added(alloc, denies, allows)?;
    let verdict = lists.judge(&addr, tenant, now);
    let copy = lists.copy();
    drop(lists);
    Ok([verdict, copy?.judge(&addr, tenant, now)])
}

#[test]
fn an_entry_and_an_allow_list(rt: HostRuntime) {
    let denies = [(Who::Network(TEN), Some(1_000))];
    let home = (TenantId(7), Some(HOME));
    let ten = (TenantId(7), Some(TEN));
    let none = (TenantId(7), None);
    let others = (TenantId(8), None);
    let rows: [(&[Entry], u32, u64, Verdict); 9] = [
        (&[], 7, 999, Verdict::Denied(0)),
        (&[], 7, 1_000, Verdict::Pass),
        (&[home], 7, 999, Verdict::Denied(0)),
        (&[home], 7, 1_000, Verdict::NotAllowed),
        (&[home], 8, 1_000, Verdict::Pass),
        (&[home, ten], 7, 1_000, Verdict::Pass),
        (&[home, ten, none], 7, 1_000, Verdict::Pass),
        (&[others, home, none, ten], 8, 1_000, Verdict::NotAllowed),
        (&[others, home, none, ten], 7, 1_000, Verdict::Pass),
    ];
    for (allows, tenant, now, want) in rows {
        let client = (CLIENT, TenantId(tenant), now);
        let verdicts = judged(rt.alloc(), &denies, allows, client);
        assert_eq!(rt; verdicts, Ok([want; 2]), "at {allows:?} {tenant} {now}");
    }
}

#[test]
fn the_first_entry_that_matches(rt: HostRuntime) {
    let denies = [
        (Who::Network(HOME), None),
        (Who::Tenant(TenantId(7)), Some(1_000)),
        (Who::Network(TEN), None),
        (Who::Tenant(TenantId(9)), None),
    ];
    let rows = [
        ((CLIENT, TenantId(7), 999), Verdict::Denied(1)),
        ((CLIENT, TenantId(7), 1_000), Verdict::Denied(2)),
        ((Addr::V6(0), TenantId(9), 0), Verdict::Denied(3)),
        ((Addr::V6(0), TenantId(8), 0), Verdict::Pass),
    ];
    for (client, want) in rows {
        let verdicts = judged(rt.alloc(), &denies, &[], client);
        assert_eq!(rt; verdicts, Ok([want; 2]), "at {client:?}");
    }
}
