use super::*;
use pgw_frames::{NoMemory, Text};
use proxy_outside::{SessionNo, TenantId};
use std::alloc::Global;
use std::net::{Ipv4Addr, Ipv6Addr, SocketAddr};
use std::test::*;

/// What the words ask, and the file and the number, where they ask to serve.
fn told(alloc: Global, line: &str) -> Result<(&'static str, bool, Option<u64>), NoMemory> {
    let mut words = Vec::new(alloc);
    for word in line.split(' ') {
        words.push(Text::of(alloc, word)?)?;
    }
    let asked = read_words(alloc, words.as_slice())?;
    let told = match &asked {
        Asked::Help => ("help", false, None),
        Asked::Serve(words) => ("serve", words.config.as_str() == "a.toml", words.sessions),
        Asked::BadServe => ("bad serve", false, None),
        Asked::Other => ("other", false, None),
    };
    drop(asked);
    Ok(told)
}

#[test]
fn words_of_the_program(rt: HostRuntime) {
    let rows = [
        ("--help", ("help", false, None)),
        ("serve --help", ("help", false, None)),
        ("serve --config a.toml", ("serve", true, None)),
        (
            "serve --sessions 3 --config=a.toml",
            ("serve", true, Some(3)),
        ),
        (
            "serve --config a.toml --sessions 18446744073709551615",
            ("serve", true, Some(18_446_744_073_709_551_615)),
        ),
        ("serve", ("bad serve", false, None)),
        ("serve --sessions 3", ("bad serve", false, None)),
        (
            "serve --config a.toml --sessions 0",
            ("bad serve", false, None),
        ),
        (
            "serve --config a.toml --sessions 03",
            ("bad serve", false, None),
        ),
        ("serve --config a.toml b.toml", ("bad serve", false, None)),
        ("check", ("other", false, None)),
        ("--help serve", ("other", false, None)),
        ("", ("other", false, None)),
    ];
    for (line, want) in rows {
        assert_eq!(rt; told(rt.alloc(), line), Ok(want), "at {line}");
    }
}

/// Port 5000 of this machine.
fn peer() -> SocketAddr {
    SocketAddr::new(std::net::IpAddr::V4(Ipv4Addr::LOCALHOST), 5000)
}

#[test]
fn lines_of_a_server(rt: HostRuntime) -> Result<(), NoMemory> {
    let mut closed = Closed {
        peer: peer(),
        tenant: Some(TenantId(7)),
        session: Some(SessionNo(12)),
        why: "bye",
        moves: 1,
        seconds: 35,
    };
    let line = closed_line(rt.alloc(), 1_700_000_000, &closed)?;
    assert_eq!(rt;
        line.as_str(),
        "closed at 1700000000: peer 127.0.0.1:5000 tenant 7 session 12 why bye moves 1 seconds 35\n"
    );
    closed.tenant = None;
    closed.session = None;
    let line = closed_line(rt.alloc(), 0, &closed)?;
    assert_eq!(rt;
        line.as_str(),
        "closed at 0: peer 127.0.0.1:5000 tenant - session - why bye moves 1 seconds 35\n"
    );
    let six = SocketAddr::from((Ipv6Addr::LOCALHOST, 26_257));
    let line = listening_line(rt.alloc(), six)?;
    assert_eq!(rt; line.as_str(), "listening on [::1]:26257\n");
    let line = drain_line(rt.alloc(), 3, 2)?;
    assert_eq!(rt; line.as_str(), "drain at 3: 2 rung\n");
    let line = settings_line(rt.alloc(), 3, "changed")?;
    assert_eq!(rt; line.as_str(), "settings at 3: changed\n");
    let line = trouble_line(rt.alloc(), 3, "drain", "no memory")?;
    assert_eq!(rt; line.as_str(), "drain at 3: no memory\n");
    assert!(rt; help_text().ends_with("prints this\n"));
    assert!(rt; usage_line().starts_with("usage: sqlproxy serve"));
    Ok(())
}

#[test]
fn ends_of_a_server(rt: HostRuntime) -> Result<(), NoMemory> {
    let text = Text::of(rt.alloc(), "missing listen")?;
    let status = ServeStatus::BadSettings(text);
    let line = fault_line(rt.alloc(), "a.toml", &status)?;
    assert_eq!(rt; line.as_str(), "bad settings: a.toml: missing listen\n");
    assert_eq!(rt; code_of(&status), 3);
    let status = ServeStatus::NoListener(peer(), Text::of(rt.alloc(), "it is in use")?);
    let line = fault_line(rt.alloc(), "a.toml", &status)?;
    assert_eq!(rt;
        line.as_str(),
        "can't listen on 127.0.0.1:5000: it is in use\n"
    );
    assert_eq!(rt; code_of(&status), 10);
    Ok(())
}
