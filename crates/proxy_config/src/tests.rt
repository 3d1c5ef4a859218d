use super::*;
use access_lists::Verdict;
use proxy_outside::{Addr, TenantId};
use std::alloc::Global;
use std::test::*;

const SAMPLE: &str = r#"
listen = "127.0.0.1:26257"
period = 10
patience = 150
login_waits = 600

[[deny]]
network = "10.0.0.0/8"
until = 1700000000
reason = "abuse"

[[allow]]
tenant = 7
networks = ["10.0.0.0/8"]

[[tenant]]
id = 7
version = 1

[[tenant.pod]]
number = 1
place = "127.0.0.1:26301"
state = "running"

[[tenant.pod]]
number = 2
place = "[::1]:26302"
state = "draining"
"#;

#[test]
fn a_sample(rt: HostRuntime) {
    let Ok(settings) = read_settings(rt.alloc(), SAMPLE.as_bytes()) else {
        panic!(rt; "the sample is refused");
    };
    assert_eq!(rt;
        settings.listen,
        Spot {
            addr: Addr::V4(0x7f00_0001),
            port: 26_257
        }
    );
    assert_eq!(rt;
        (settings.period, settings.patience, settings.login_waits),
        (10, 150, 600)
    );
    assert_eq!(rt; (settings.deny.len(), settings.allow.len()), (1, 1));
    assert_eq!(rt;
        settings.tenants.get(0).map(|row| row.pods().len()),
        Some(2)
    );
    let Ok(lists) = settings.lists(rt.alloc()) else {
        panic!(rt; "no memory");
    };
    let client = Addr::V4(0x0a01_0203);
    assert_eq!(rt;
        lists.judge(&client, TenantId(7), 1_699_999_999),
        Verdict::Denied(0)
    );
    assert_eq!(rt;
        lists.judge(&client, TenantId(7), 1_700_000_000),
        Verdict::Pass
    );
    assert_eq!(rt;
        lists.judge(&Addr::V4(1), TenantId(7), 1_700_000_000),
        Verdict::NotAllowed
    );
}

/// What is printed of these settings.
fn answer(alloc: Global, text: &str) -> Result<String, SettingsFault> {
    match read_settings(alloc, text.as_bytes()) {
        Ok(settings) => {
            drop(settings);
            Ok(String::new(alloc))
        }
        Err(e) => Ok(format!(in alloc; "{e}")?),
    }
}

#[test]
fn faults_of_the_sample(rt: HostRuntime) {
    let rows = [
        ("x", "not toml"),
        ("", "missing listen"),
        ("listen = 1", "wrong kind listen"),
        ("listen = \"127.0.0.1\"", "bad place listen"),
        ("listen = \"127.0.0.1:0\"", "bad place listen"),
        ("listen = \"127.0.0.1:080\"", "bad place listen"),
        ("listen = \"::1:80\"", "bad place listen"),
        ("listen = \"[127.0.0.1]:80\"", "bad place listen"),
        ("listen = \"[::1]:65535\"", ""),
        ("listen = \"[::1]:65536\"", "bad place listen"),
        ("b = 1\na = 1", "unknown key a"),
        ("listen = \"1.1.1.1:1\"\nperiod = 0", "out of range period"),
        (
            "listen = \"1.1.1.1:1\"\nperiod = 1000001",
            "out of range period",
        ),
        ("listen = \"1.1.1.1:1\"\nperiod = 1000000", ""),
        (
            "listen = \"1.1.1.1:1\"\npatience = -1",
            "out of range patience",
        ),
        ("listen = \"1.1.1.1:1\"\ndeny = 1", "wrong kind deny"),
        ("listen = \"1.1.1.1:1\"\ndeny = [1]", "wrong kind deny[0]"),
        (
            "listen = \"1.1.1.1:1\"\n[[deny]]",
            "missing deny[0].network",
        ),
        (
            "listen = \"1.1.1.1:1\"\n[[deny]]\nnetwork = 1\ntenant = 1",
            "missing deny[0].network",
        ),
        (
            "listen = \"1.1.1.1:1\"\n[[deny]]\nnetwork = \"x\"",
            "bad network deny[0].network",
        ),
        (
            "listen = \"1.1.1.1:1\"\n[[deny]]\ntenant = 1",
            "missing deny[0].reason",
        ),
        (
            "listen = \"1.1.1.1:1\"\n[[allow]]\ntenant = 1\n[[allow]]\ntenant = 1",
            "twice allow[1].tenant",
        ),
        (
            "listen = \"1.1.1.1:1\"\n[[allow]]\ntenant = 1\nnetworks = [\"::/0\", 1]",
            "wrong kind allow[0].networks[1]",
        ),
        (
            "listen = \"1.1.1.1:1\"\n[[tenant]]\nid = 1\nversion = 0\npod = [{number = 1, place = \"x\"}]",
            "bad place tenant[0].pod[0].place",
        ),
        (
            "listen = \"1.1.1.1:1\"\n[[tenant]]\nid = 4294967296",
            "out of range tenant[0].id",
        ),
    ];
    for (text, want) in rows {
        let Ok(said) = answer(rt.alloc(), text) else {
            panic!(rt; "no memory");
        };
        assert_eq!(rt; said.as_str(), want, "at {text}");
    }
}
