use super::*;
use pgw_frames::NoMemory;
use proxy_config::{SettingsFault, Spot};
use proxy_outside::{Addr, TenantId};
use std::alloc::Global;
use std::test::*;

const TEXT: &str =
    "tenant = 7\nsecret = \"sixteen bytes, or\"\ntoken_until = 100\nlisten = [\"127.0.0.1:26301\", \"[::1]:26302\"]\n\n[[user]]\nname = \"u\"\npassword = \"pw\"\n";

/// What a text gives: the number of users, or what its fault prints.
fn told(alloc: Global, text: &str) -> Result<String, NoMemory> {
    match read_pod_settings(alloc, text.as_bytes()) {
        Ok(file) => Ok(format!(in alloc; "{}", file.pod.users.len())?),
        Err(SettingsFault::NoMemory) => Err(NoMemory),
        Err(fault) => Ok(format!(in alloc; "{fault}")?),
    }
}

#[test]
fn a_file_of_settings(rt: HostRuntime) -> Result<(), Fail> {
    let file = match read_pod_settings(rt.alloc(), TEXT.as_bytes()) {
        Ok(file) => file,
        Err(_) => panic!(rt; "it can be read"),
    };
    assert_eq!(rt; file.pod.tenant, TenantId(7));
    assert_eq!(rt; file.pod.secret.as_slice(), b"sixteen bytes, or".as_slice());
    assert_eq!(rt; file.pod.token_until, 100);
    assert_eq!(rt; file.pod.users.len(), 1);
    let spots = [
        Spot {
            addr: Addr::V4(0x7f00_0001),
            port: 26301,
        },
        Spot {
            addr: Addr::V6(1),
            port: 26302,
        },
    ];
    assert_eq!(rt; file.listen.as_slice(), spots.as_slice());
    Ok(())
}

#[test]
fn faults_name_their_keys(rt: HostRuntime) -> Result<(), Fail> {
    // What stands in the sample, what is written in its place, and what is told.
    let rows = [
        ("tenant = 7", "tenant = 7\nlevel = 1", "unknown key level"),
        ("tenant = 7\n", "", "missing tenant"),
        ("tenant = 7", "tenant = 4294967296", "out of range tenant"),
        ("bytes, or", "byte", "out of range secret"),
        (
            "token_until = 100",
            "token_until = \"\"",
            "wrong kind token_until",
        ),
        (
            "[\"127.0.0.1:26301\", \"[::1]:26302\"]",
            "[]",
            "out of range listen",
        ),
        ("[::1]:26302", "[::1]", "bad place listen[1]"),
        (
            "name = \"u\"",
            "name = \"u\"\nlevel = 1",
            "unknown key user[0].level",
        ),
        ("password = \"pw\"\n", "", "missing user[0].password"),
        (
            "[[user]]",
            "[[user]]\nname = \"u\"\npassword = \"\"\n[[user]]",
            "twice user[1].name",
        ),
        ("[[user]]", "user = []\n[u]", "unknown key u"),
        ("tenant = 7", "tenant = ", "not toml"),
    ];
    for (old, new, want) in rows {
        let text = TEXT.replace(rt.alloc(), old, new)?;
        let seen = told(rt.alloc(), text.as_str())?;
        assert_eq!(rt; seen.as_str(), want);
    }
    Ok(())
}
